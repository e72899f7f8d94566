ghost use Rattle.rb_reply.specs.Errors.{code_status, code_text};
ghost use Rattle.std.specs.Prelude.{◌≡◌};

/// The code of a reply that tells an error, each with one status.
#[derive(Clone, Copy, Debug, PartialEq, Eq)]
pub enum ErrorCode {
    BadHead,
    BadLength,
    Cut,
    TooLong,
    TransferEncoding,
    Unauthorized,
    NoRoute,
    NoProject,
    NoJob,
    NoExecution,
    NoMethod,
    BadVersion,
    BadQuery,
    BadBody,
    BadArgs,
    BadFilter,
    BadName,
    BadOption,
    BadDocument,
    Denied,
    Disabled,
    AlreadyRunning,
    BadReference,
    NoNodeSelected,
    TooLarge,
    Ended,
    Aborting,
    IdTaken,
    NameTaken,
    TooMany,
    Full,
    Store,
    Memory,
    /// The desk was asked, and there was no memory for its reply.
    MemoryReply,
}

/// The status of a code, and how it is written.
#[derive(Clone, Copy, Debug, PartialEq, Eq)]
struct Written {
    status: u16,
    text: &'static str,
}

fn code_of(status: u16, text: &'static str) -> Written
    ensures status { result.status ≡ status }
    ensures text { result.text.now ≡ text.now }
{
    Written { status, text }
}

impl ErrorCode {
    /// Each code with its status and its text.
    fn written(self) -> Written
        ensures status { result.status ≡ code_status self }
        ensures text { result.text.now ≡ code_text self }
    {
        match self {
            ErrorCode::BadHead => code_of(400, "bad-head"),
            ErrorCode::BadLength => code_of(400, "bad-length"),
            ErrorCode::Cut => code_of(400, "cut"),
            ErrorCode::TooLong => code_of(413, "too-long"),
            ErrorCode::TransferEncoding => code_of(501, "transfer-encoding"),
            ErrorCode::Unauthorized => code_of(401, "unauthorized"),
            ErrorCode::NoRoute => code_of(404, "no-route"),
            ErrorCode::NoProject => code_of(404, "no-project"),
            ErrorCode::NoJob => code_of(404, "no-job"),
            ErrorCode::NoExecution => code_of(404, "no-execution"),
            ErrorCode::NoMethod => code_of(405, "no-method"),
            ErrorCode::BadVersion => code_of(400, "bad-version"),
            ErrorCode::BadQuery => code_of(400, "bad-query"),
            ErrorCode::BadBody => code_of(400, "bad-body"),
            ErrorCode::BadArgs => code_of(400, "bad-args"),
            ErrorCode::BadFilter => code_of(400, "bad-filter"),
            ErrorCode::BadName => code_of(400, "bad-name"),
            ErrorCode::BadOption => code_of(400, "bad-option"),
            ErrorCode::BadDocument => code_of(400, "bad-document"),
            ErrorCode::Denied => code_of(403, "denied"),
            ErrorCode::Disabled => code_of(409, "disabled"),
            ErrorCode::AlreadyRunning => code_of(409, "already-running"),
            ErrorCode::BadReference => code_of(409, "bad-reference"),
            ErrorCode::NoNodeSelected => code_of(409, "no-node-selected"),
            ErrorCode::TooLarge => code_of(409, "too-large"),
            ErrorCode::Ended => code_of(409, "ended"),
            ErrorCode::Aborting => code_of(409, "aborting"),
            ErrorCode::IdTaken => code_of(409, "id-taken"),
            ErrorCode::NameTaken => code_of(409, "name-taken"),
            ErrorCode::TooMany => code_of(409, "too-many"),
            ErrorCode::Full => code_of(429, "full"),
            ErrorCode::Store => code_of(503, "store"),
            ErrorCode::Memory => code_of(507, "memory"),
            ErrorCode::MemoryReply => code_of(507, "memory-reply"),
        }
    }

    pub fn status(self) -> u16
        ensures { result ≡ code_status self }
    {
        self.written().status
    }

    /// The code as a reply writes it.
    pub fn text(self) -> &'static str
        ensures { result.now ≡ code_text self }
    {
        self.written().text
    }
}
