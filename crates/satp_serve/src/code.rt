// The code with which a refused body is answered.
ghost use Rattle.std.specs.Prelude.{◌≡◌, ◌≢◌, IsTrue};
ghost use Rattle.satp_http.specs.Written.{is_answer_code};
ghost use Rattle.satp_serve.specs.Codes.{refusal_code};

use satp_points::Refused;

/// The code with which a refused body is answered. No body is refused with `Exists` or `TooLate`.
pub fn refusal_code(refused: Refused) -> u16
    ensures code { result ≡ refusal_code refused }
    ensures answer { IsTrue (is_answer_code result) }
    ensures body { result ≢ 204 }
{
    match refused {
        Refused::Size { .. } => 413,
        Refused::Jws { .. } => 400,
        Refused::Header => 400,
        Refused::Body { .. } => 400,
        Refused::Receiver => 400,
        Refused::Strange { .. } => 400,
        Refused::Chain { .. } => 409,
        Refused::Recovery { .. } => 409,
        Refused::Exists => 409,
        Refused::TooLate { .. } => 409,
        Refused::Full { .. } => 503,
        Refused::Broken => 503,
        Refused::Site => 503,
        Refused::Memory => 503,
    }
}
