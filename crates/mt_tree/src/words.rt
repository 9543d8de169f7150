ghost use Rattle.std.specs.Prelude.{◌≡◌};
ghost use Rattle.mt_tree.specs.Tables.{is_among};
ghost use Rattle.mt_tree.specs.Words.{constant_words, is_reserved};

use crate::tables::listed;

const RESERVED: [&[u8]; 39] = [
    b"break",
    b"case",
    b"catch",
    b"class",
    b"const",
    b"continue",
    b"debugger",
    b"default",
    b"delete",
    b"do",
    b"else",
    b"export",
    b"extends",
    b"false",
    b"finally",
    b"for",
    b"function",
    b"if",
    b"import",
    b"in",
    b"instanceof",
    b"let",
    b"new",
    b"null",
    b"return",
    b"service",
    b"super",
    b"switch",
    b"this",
    b"throw",
    b"true",
    b"try",
    b"typeof",
    b"undefined",
    b"var",
    b"void",
    b"while",
    b"with",
    b"yield",
];

const CONSTANTS: [&[u8]; 4] = [b"false", b"null", b"true", b"undefined"];

/// Whether the word, in UTF-8, is reserved by the language and so names nothing. Takes no memory.
pub fn word_reserved(word: &[u8]) -> bool
    ensures { result ≡ is_reserved word.now }
{
    listed(&RESERVED, word)
}

/// Whether the word, in UTF-8, is a reserved one that stands for a value: `false`, `null`, `true` or `undefined`. Takes no memory.
pub fn word_constant(word: &[u8]) -> bool
    ensures { result ≡ is_among constant_words word.now }
{
    listed(&CONSTANTS, word)
}
