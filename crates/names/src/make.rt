ghost use Rattle.std.specs.Prelude.{◌≡◌};
ghost use Rattle.names.specs.Letters.{all_letters, is_name};
ghost use Rattle.names.specs.Texts.{text_of, seen, named};

use crate::Name;

// Whether every byte is a letter.
fn lettered(text: &[u8]) -> bool
    ensures { result ≡ all_letters text.now }
{
    text.iter().all(|byte| byte.is_ascii_lowercase())
}

// Whether a text is a name.
fn name_like(text: &[u8]) -> bool
    ensures { result ≡ is_name text.now }
{
    0 < text.len() && text.len() <= 8 && lettered(text)
}

impl Name {
    /// The name with this text; `None` where the text is not 1 to 8 letters a to z.
    // No `TryFrom`: there is one way to fail, and `None` says it without an error type.
    pub fn new(text: &[u8]) -> Option<Name>
        ensures { seen result ≡ named text.now }
    {
        if !name_like(text) {
            return None;
        }
        let mut letters = [0; 8];
        letters[..text.len()].copy_from_slice(text);
        Some(Name {
            letters,
            len: text.len() as u8,
        })
    }

    // The name's text.
    pub(crate) fn text(&self) -> &[u8]
        ensures { result.now ≡ text_of self.now }
    {
        &self.letters[..self.len as usize]
    }
}
