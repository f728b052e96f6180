// The laws of the lexical grammar, as functions with no code.
ghost use Rattle.ct_token.specs.Cutting.{ScansCutTheText};
ghost use Rattle.ct_token.specs.Lexing.{ScansAreTokens};

/// The tokens that a scan gives are pieces of the text, one after the other, each spelled as its symbol
/// says and as long as it can be.
pub fn scans_are_tokens()
    ensures { ScansAreTokens }
{}

/// A scan cuts a text into tokens, blanks, blank lines and comments, to its end or to the first byte with
/// which none of these begins.
pub fn scans_cut_the_text()
    ensures { ScansCutTheText }
{}
