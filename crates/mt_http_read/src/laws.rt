ghost use Rattle.std.specs.Prelude.{◌≡◌, ◌++◌, List, Some, ℕ};
ghost use Rattle.mt_http_stream.specs.Settling.{Found, IsFound, Settles};
ghost use Rattle.mt_http_stream.specs.declared.settled.Settled.{Settled};
ghost use Rattle.mt_http_read.specs.Heads.{head_in};
ghost use Rattle.mt_http_read.specs.Reading.{reads_request, settled_in};

/// The head that is found is the one of the grammar of `httparse`, of at most 65,536 bytes, that stands at the front of the bytes.
/// There is at most one, and where there is none, none is found.
pub fn heads_are_found()
    ensures one { (bytes : List ℕ) → IsFound bytes (head_in bytes) }
    ensures only { (bytes : List ℕ) (found : Found) → IsFound bytes found → head_in bytes ≡ found }
{}

/// Bytes that have decided are read the same with anything behind them, and have then decided the same.
pub fn read_for_good()
    ensures settled { (services : List (List ℕ)) (bytes more : List ℕ) (settled : Settled) → settled_in services bytes ≡ Some settled → settled_in services (bytes ++ more) ≡ Some settled }
    ensures read { (services : List (List ℕ)) (bytes more : List ℕ) (settled : Settled) → settled_in services bytes ≡ Some settled → reads_request services (bytes ++ more) ≡ reads_request services bytes }
{}
