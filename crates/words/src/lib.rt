// Runs of 128 words, compared: how `replay` holds its answers to those of the list.

#![tactic(auto)]

ghost use Rattle.std.specs.Prelude.{◌≡◌};
ghost use Rattle.words.specs.Words.{agree};

// How many words a run has.
pub const WORDS: usize = 128;

// Whether all words agree.
pub fn same(a: &[u32; WORDS], b: &[u32; WORDS]) -> bool
    ensures { result ≡ agree 128 a.now b.now }
{
    a == b
}
