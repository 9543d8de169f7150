//! Laws of the tokens of a page: each is read from its text, and from no other bytes. Each function here has an empty body, and its
//! contract states the law.
ghost use Rattle.std.specs.Prelude.{◌≡◌, ℕ, List, Some, true};
ghost use Rattle.std.specs.Str.{encode_utf8_all};
ghost use Rattle.mt_tree.specs.declared.html.Attribute.{Attribute};
ghost use Rattle.mt_syntax.specs.PageText.{escaped};
ghost use Rattle.mt_syntax.specs.declared.program.Code.{Code};
ghost use Rattle.mt_page_tokens.specs.declared.tokens.Opening.{Opening};
ghost use Rattle.mt_page_tokens.specs.Codes.{is_code};
ghost use Rattle.mt_page_tokens.specs.Limits.{is_text, opens};
ghost use Rattle.mt_page_tokens.specs.Reading.{opening_at, script_at, words_at};
ghost use Rattle.mt_page_tokens.specs.Tokens.{Chars, opening, script};

/// An opening tag within the limits is found in its text, and what is found in bytes is an opening tag within the limits that has just
/// these bytes as its text.
pub fn openings_are_found_in_just_their_text()
    ensures found { (tag : Chars) (attributes : List (Attribute Code)) → opens tag attributes ≡ true → opening_at (opening tag attributes) ≡ Some (record { tag = tag; attributes = attributes }) }
    ensures alone { (bytes : List ℕ) (o : Opening) → opening_at bytes ≡ Some o → (opens o.tag o.attributes ≡ true) × (opening o.tag o.attributes ≡ bytes) }
{}

/// So is a text that stands between tags.
pub fn words_are_found_in_just_their_text()
    ensures found { (text : Chars) → is_text text ≡ true → words_at (escaped (encode_utf8_all text)) ≡ Some text }
    ensures alone { (bytes : List ℕ) (text : Chars) → words_at bytes ≡ Some text → (is_text text ≡ true) × (escaped (encode_utf8_all text) ≡ bytes) }
{}

/// So is a script.
pub fn scripts_are_found_in_just_their_text()
    ensures found { (code : Code) → is_code code ≡ true → script_at (script code) ≡ Some code }
    ensures alone { (bytes : List ℕ) (code : Code) → script_at bytes ≡ Some code → (is_code code ≡ true) × (script code ≡ bytes) }
{}
