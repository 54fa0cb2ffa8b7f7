ghost use Rattle.journal.specs.Worked.{Worked};

// How many worked cases of the format and of the log's rule are proved to come out as written.
pub fn worked_cases() -> usize
    ensures { Worked result }
{
    12
}
