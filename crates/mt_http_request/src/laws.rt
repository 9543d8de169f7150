ghost use Rattle.std.specs.Prelude.{◌≡◌, ◌++◌, List, ℕ, []};
ghost use Rattle.mt_http_types.specs.declared.request.Request.{Request};
ghost use Rattle.mt_http_request.specs.RequestText.{request_text, IsRequest};

/// No two requests have one text, and no request's text is a proper prefix of another's.
pub fn one_text_for_each_request()
    ensures { (a b : Request) (more : List ℕ) → IsRequest a → IsRequest b → request_text b ≡ request_text a ++ more → (a ≡ b) × (more ≡ []) }
{}
