//! A document that an editor holds.
ghost use Rattle.std.specs.Prelude.{◌≡◌, true, take, IfOk};

use rotor_base::Memory;
use std::alloc::Global;

/// The text of a document that an editor holds.
#[derive(Debug, Drop)]
pub enum OpenText {
    /// The whole text.
    Known(String),
    /// The editor said a part of a change alone, so the text is not known here.
    Unknown,
}

/// A document that an editor holds.
#[derive(Debug, Drop)]
pub struct Document {
    /// Its URI, as the editor spelled it first.
    pub uri: String,
    /// Its version, as the editor said it last; `None` if it said none.
    pub version: Option<i64>,
    pub text: OpenText,
}

impl Document {
    ghost use Rattle.open_documents.specs.Document.{changed, is_known, text_bytes};

    /// Takes a change. Its text is `None` if the change has none.
    pub(crate) fn change(&mut self, version: Option<i64>, text: Option<OpenText>)
        ensures { self.new ≡ changed self.old version text }
    {
        self.version = version;
        if let Some(text) = text {
            self.text = text;
        }
    }

    /// Whether the text is known.
    pub fn is_known(&self) -> bool
        ensures { result ≡ is_known self.now }
    {
        matches!(self.text, OpenText::Known(_))
    }

    /// The first bytes of its text, at most `limit`.
    pub(crate) fn front(&self, alloc: Global, limit: u32) -> Result<Vec<u8>, Memory>
        requires { is_known self.now ≡ true }
        ensures { IfOk result (λ bytes. bytes.items ≡ take limit (text_bytes self.now.text)) }
    {
        match &self.text {
            OpenText::Unknown => unreachable!(),
            OpenText::Known(text) => {
                let bytes = text.as_bytes();
                Ok(bytes[..bytes.len().min(limit as usize)].to_vec(alloc)?)
            }
        }
    }
}
