ghost use Rattle.std.specs.Prelude.{◌≡◌, length};
ghost use Rattle.quorum.specs.Examples.{examples, Hold};

// How many worked examples there are, each of which holds.
pub fn example_count() -> usize
    ensures count { result ≡ length examples }
    ensures hold { Hold examples }
{
    4
}
