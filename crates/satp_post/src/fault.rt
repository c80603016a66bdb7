// Why a text that was posted has no answer.
ghost use Rattle.satp_post.specs.Posting.{Tells};

use satp_http::HttpFault;

/// Why a text that was posted has no answer.
#[derive(Clone, Copy, Debug, PartialEq, Eq)]
pub enum PostFault {
    /// A call on the wire failed: after the whole request was said, or before that.
    Wire { said: bool },
    /// The connection ended before the whole answer.
    Early,
    /// What was heard is no answer. The fault is never its `Memory`.
    NotHttp { fault: HttpFault },
    /// No memory was found: for an answer, after the whole request was said, or for the request.
    Memory { said: bool },
}

/// What is answered where no answer could be taken.
pub(crate) fn fault_of(fault: HttpFault) -> PostFault
    ensures { Tells fault result }
{
    if fault == HttpFault::Memory {
        return PostFault::Memory { said: true };
    }
    PostFault::NotHttp { fault }
}
