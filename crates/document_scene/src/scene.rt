//! What an answer is made from.

use open_documents::Documents;
use refusal_words::CutSource;
use rotor_base::SourceFile;
use text_places::Counting;

/// A folder as an answer shows it: its path, the documents that an editor holds there, its sources with their tokens,
/// and how the editor counts columns.
#[derive(Clone, Copy)]
pub struct Scene<'a> {
    pub folder: &'a str,
    pub held: &'a Documents,
    pub sources: &'a [SourceFile],
    pub cuts: &'a [CutSource<'a>],
    pub counting: Counting,
}
