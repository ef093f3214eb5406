// Texts cut where a byte stands, and keys compared as byte strings: what the readers of plans and of order lines share.
#![tactic(auto)]

ghost use Rattle.std.specs.Prelude.{◌≡◌};
ghost use Rattle.text_keys.specs.Parts.{first_of, begins};
ghost use Rattle.text_keys.specs.Answers.{found_is};

// The first byte b of a text.
pub fn find(t: &[u8], b: u8) -> Option<usize>
    ensures { found_is result ≡ first_of b t.now }
{
    t.iter().position(|x| *x == b)
}

// Whether a text begins with a key.
pub fn has_key(t: &[u8], key: &[u8]) -> bool
    ensures { result ≡ begins key.now t.now }
{
    t.starts_with(key)
}
