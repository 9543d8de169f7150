use mt_tree::Text;

/// Why the server gives no page.
#[derive(Clone, Copy, Debug, PartialEq, Eq)]
pub enum Failure {
    /// 400: the bytes are no request.
    BadRequest,
    /// 404: no service has the name in the target.
    NotFound,
}

/// What the server takes a request for.
#[derive(Clone, Copy, Debug, PartialEq, Eq)]
pub enum Asked {
    /// The page of the application's service.
    Page,
    /// Nothing that there is.
    Refused(Failure),
}

/// What the server answers.
#[derive(Drop)]
pub enum Reply {
    /// A page of one paragraph with this text.
    Page(Text),
    /// No page, and why.
    Failure(Failure),
}
