// Things that a word names.
ghost use Rattle.std.specs.Prelude.{◌≡◌, ℕ, List};
ghost use Rattle.command_options.specs.Named.{first_named};

pub trait Named {
    ghost spelled: { Self → List ℕ };

    // The word that names it.
    fn word(&self) -> &'static str
        ensures { result.now ≡ spelled self.now };
}

// The first of them that the word names.
pub fn find_named<N: Named + Copy>(all: &[N], word: &str) -> Option<N>
    ensures { result ≡ first_named N.Named.spelled all.now word.now }
{
    all.iter().find(|one| one.word() == word).copied()
}
