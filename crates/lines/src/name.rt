// The struct stands here alone, so that specifications which name it can be cited in the module below.
ghost use Rattle.std.specs.Prelude.{◌≡◌, ◌-◌, ◌≤◌, length, drop, replicate};
ghost use Rattle.names.specs.Labels.{label};

use names::Label;

pub mod labels;

// Up to eight labels: the first `count` of the array, which takes no memory from a heap and can be copied.
// The other places hold no label, so that names are equal when their labels are.
#[derive(Clone, Copy, Debug, PartialEq, Eq)]
pub struct Name {
    count: usize,
    labels: [Label; 8],
    ghost few: { count ≤ 8 },
    ghost eight: { length labels ≡ 8 },
    ghost blank: { drop count labels ≡ replicate (8 - count) (label 0) },
}
