ghost use Rattle.std.specs.Prelude.{◌≡◌, true, encode_utf8_all};
ghost use Rattle.mt_small.specs.Name.{is_service_name};
ghost use Rattle.mt_small.specs.Paragraph.{is_paragraph};

use mt_tree::Text;

/// An application of one service, whose page is one paragraph of text.
#[derive(Drop)]
pub struct Small {
    /// The service's name: 1 to 32 lower-case ASCII letters, neither a reserved word nor a builtin's name.
    pub service: Text,
    /// The paragraph's text: 1 to 1,000 ASCII letters, digits and spaces.
    pub text: Text,
    ghost service_fits: { is_service_name (encode_utf8_all service) ≡ true },
    ghost text_fits: { is_paragraph (encode_utf8_all text) ≡ true },
}
