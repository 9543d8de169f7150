ghost use Rattle.std.specs.Prelude.{◌≡◌, ◌++◌, List, ℕ, []};
ghost use Rattle.mt_http_types.specs.declared.reply.Reply.{Reply};
ghost use Rattle.mt_http_reply.specs.ReplyText.{reply_text, IsReply};
ghost use Rattle.mt_http_reply.specs.Reading.{BeginsNoReply, IsNoReply};

/// No two replies have one text, and no reply's text is a proper prefix of another's.
pub fn one_text_for_each_reply()
    ensures { (a b : Reply) (more : List ℕ) → IsReply a → IsReply b → reply_text b ≡ reply_text a ++ more → (a ≡ b) × (more ≡ []) }
{}

/// Bytes with which no reply begins are refused, whatever comes behind them.
pub fn refused_for_good()
    ensures { (bytes more : List ℕ) → BeginsNoReply bytes → IsNoReply (bytes ++ more) }
{}
