// What a long batch is asked for.
ghost use Rattle.std.specs.Prelude.{◌*◌, ◌≤◌, length};
ghost use Rattle.step.specs.Run.{Asked};

// So many copies of an edition, from the composition in `first` on: 40 or more, since the last 40 are not written by blocks (`copies`).
#[derive(Clone, Copy)]
pub(crate) struct Job<'a> {
    pub(crate) upper: &'a [u8],
    pub(crate) total: u32,
    pub(crate) first: [u8; 24],
    pub(crate) copies: usize,
    ghost asked: { Asked upper.now total first copies (copies * length upper.now) },
    ghost many: { 40 ≤ copies },
}
