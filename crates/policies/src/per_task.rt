// A figure for each task, in an array: a table has room for eight tasks, and policies are `Copy`.
ghost use Rattle.std.specs.Prelude.{◌≡◌, length};

#[derive(Clone, Copy, Debug, PartialEq, Eq)]
pub struct PerTask {
    pub figures: [u8; 8],
    ghost wide: { length figures ≡ 8 },
}
