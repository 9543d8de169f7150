ghost use Rattle.std.specs.Prelude.{◌≡◌, ◌≤◌, ◌++◌, List, Some, encode_utf8_all, length, true, ℕ};
ghost use Rattle.std.specs.List.{find, list_all};
ghost use Rattle.std.specs.Str.{all_scalars};
ghost use Rattle.mt_tree.specs.declared.data.Data.{Data};
ghost use Rattle.mt_syntax.specs.Data.{is_data};
ghost use Rattle.mt_syntax.specs.DataLimits.{AreWithinLimits};
ghost use Rattle.mt_syntax.specs.DataText.{arguments_text};
ghost use Rattle.mt_http_types.specs.Target.{is_target};
ghost use Rattle.mt_http_types.specs.declared.request.Request.{Request};
ghost use Rattle.mt_http_types.specs.declared.request.Request.TheVariants as request;
ghost use Rattle.mt_http_types.specs.declared.target.Target.{Target};
ghost use Rattle.mt_http_request.specs.RequestText.{load_text, post_text, request_text};
ghost use Rattle.mt_http_request.specs.Targets.{call_target, service_path};
ghost use Rattle.mt_http_head.specs.Targets.{has_name, service_at};
ghost use Rattle.mt_http_stream.specs.Settling.{Settles};
ghost use Rattle.mt_http_read.specs.Reading.{reads_request};
ghost use Rattle.mt_http_laws.specs.Decided.{call_by, load_by, load_of};
ghost use Rattle.mt_http_laws.specs.Understood.{IsSent, load_of as load_with, service_of, understood};

/// The text of each request that a client sends is read as the request is understood: a load by its target, a call by its service
/// and its arguments, and with 431 a call whose head is longer than 65,536 bytes. So it is with any bytes behind the text.
pub fn written_requests_are_understood()
    ensures read { (services : List (List ℕ)) (m : Request) → IsSent m → reads_request services (request_text m) ≡ understood services m }
    ensures more { (services : List (List ℕ)) (m : Request) (more : List ℕ) → IsSent m → reads_request services (request_text m ++ more) ≡ understood services m }
{}

/// A load of the target that a frame of a page has for a service and arguments is understood as the load of this service with these
/// arguments.
pub fn frames_call_services()
    ensures { (services : List (List ℕ)) (target : Target) (service : List ℕ) (arguments : List Data) → all_scalars service ≡ true → AreWithinLimits arguments
        → encode_utf8_all target.0 ≡ call_target service arguments → understood services (request.Load target) ≡ load_with (service_of services service) (Some arguments) }
{}

/// The text of each load has decided, and what it has decided is what its target asks for.
pub fn written_loads_are_decided()
    ensures { (services : List (List ℕ)) (target : List ℕ) → is_target target ≡ true → Settles services (load_text target) (Some (load_by services target)) }
{}

/// The text of each call, whose arguments take at most 4,194,304 bytes, has decided, and what it has decided is that call: of the
/// service that its path names, with the text of its arguments. A call whose head is longer than 65,536 bytes is refused with 431.
pub fn written_calls_are_decided()
    ensures { (services : List (List ℕ)) (service : List ℕ) (arguments : List Data) → length (arguments_text arguments) ≤ 4194304 → Settles services (post_text service arguments) (Some (call_by services service (arguments_text arguments))) }
{}

/// The path of a service leads to the first service of this name, whatever characters the name has.
pub fn paths_name_services()
    ensures { (services : List (List ℕ)) (service : List ℕ) → all_scalars service ≡ true → service_at services (service_path service) ≡ find (has_name (encode_utf8_all service)) services }
{}

/// A load of the target that calls a service with arguments is the load of this service with the text of these arguments.
pub fn targets_carry_arguments()
    ensures { (services : List (List ℕ)) (service : List ℕ) (arguments : List Data) → list_all is_data arguments ≡ true → load_by services (call_target service arguments) ≡ load_of (service_at services (service_path service)) (Some (arguments_text arguments)) }
{}
