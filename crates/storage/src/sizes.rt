ghost use Rattle.std.specs.Prelude.{◌≡◌, length};
ghost use Rattle.storage.specs.Sizes.{size_examples, SizesHold};

// How many worked examples of a byte log's size there are, each of which holds.
pub fn size_example_count() -> usize
    ensures count { result ≡ length size_examples }
    ensures hold { SizesHold size_examples }
{
    4
}
