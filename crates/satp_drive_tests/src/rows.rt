// What is heard in a drive, and what comes of it.

use satp_drive::DriveEnd;
use satp_gateway::Refused;
use satp_http::HttpFault;
use satp_jws::JwsFault;

/// What is asked of the gateway; each drive is of the session `alpha.1`.
#[derive(Clone, Copy)]
pub enum Ask {
    Start,
    Resume,
    Recover,
}

/// What is asked, the bytes that are heard and then the end, which call on the wire fails (the first connects, the second says, the third hears; none fails where it is
/// 0), why the drive ends, and how many messages passed.
pub type Row = (Ask, &'static [u8], u64, DriveEnd, u32);

/// An answer without a body.
const NOTHING: &[u8] = b"HTTP/1.1 204 No Content\r\n\r\n";

/// The answers of `beta` in a whole transfer.
const TRANSFER: &[u8] = b"\
      HTTP/1.1 200 OK\r\nContent-Type: application/jose\r\nContent-Length: 284\r\n\r\neyJhbGciOiJIUzI1NiJ9.eyJraW5kIjoicHJvcG9zYWwtcmVjZWlwdCIsInByZXZpb3VzIjoiQTBVYzRaYW9yYWNwT3NpS2pPMzRYb1BtUEZRdW12MTNTOEswdHdqRXhJTSIsInJlY2VpdmVyIjoiYWxwaGEiLCJzZW5kZXIiOiJiZXRhIiwic2VxdWVuY2UiOjIsInNlc3Npb24iOiJhbHBoYS4xIiwidmVyc2lvbiI6MX0.VZZrh-nyDhipfDCMP55JUpLrazNsb7s2K4fVUxJP4iA\
      HTTP/1.1 200 OK\r\nContent-Type: application/jose\r\nContent-Length: 279\r\n\r\neyJhbGciOiJIUzI1NiJ9.eyJraW5kIjoiY29tbWVuY2UtYWNrIiwicHJldmlvdXMiOiJJTlR0anhWYWd3b3ZsQjZROGdUMDhoem5iWFFzUng3eGRoM2xrSWdiOUtVIiwicmVjZWl2ZXIiOiJhbHBoYSIsInNlbmRlciI6ImJldGEiLCJzZXF1ZW5jZSI6NCwic2Vzc2lvbiI6ImFscGhhLjEiLCJ2ZXJzaW9uIjoxfQ.Wno-wjqcuiptKZAovUHU56lSly5O5gzeToL2V1hnQ-k\
      HTTP/1.1 200 OK\r\nContent-Type: application/jose\r\nContent-Length: 279\r\n\r\neyJhbGciOiJIUzI1NiJ9.eyJraW5kIjoibG9jay1yZWNlaXB0IiwicHJldmlvdXMiOiJZUV9vUFJhNWRqYkFQbV9BX3FmeDZ1aHpjaUV1WkFqcUZvNThaLVpzY3NrIiwicmVjZWl2ZXIiOiJhbHBoYSIsInNlbmRlciI6ImJldGEiLCJzZXF1ZW5jZSI6Niwic2Vzc2lvbiI6ImFscGhhLjEiLCJ2ZXJzaW9uIjoxfQ.xn4ho_hqLW3_2Zu_wcOgSfH2jDvOpZovtSWZH6BHSpU\
      HTTP/1.1 200 OK\r\nContent-Type: application/jose\r\nContent-Length: 279\r\n\r\neyJhbGciOiJIUzI1NiJ9.eyJraW5kIjoiY29tbWl0LXJlYWR5IiwicHJldmlvdXMiOiJoZ21IWXU4aTRIX0ZMWkt2WUhQUXkycmtIdXBBYnppbFZfbW1kbTV1N0dVIiwicmVjZWl2ZXIiOiJhbHBoYSIsInNlbmRlciI6ImJldGEiLCJzZXF1ZW5jZSI6OCwic2Vzc2lvbiI6ImFscGhhLjEiLCJ2ZXJzaW9uIjoxfQ.T-gHzeOcsJVt5_q0-fr7ssVV9M1kPw6LQ1Z-ZP6Pm7U\
      HTTP/1.1 200 OK\r\nContent-Type: application/jose\r\nContent-Length: 285\r\n\r\neyJhbGciOiJIUzI1NiJ9.eyJraW5kIjoiY29tbWl0LWZpbmFsLWFjayIsInByZXZpb3VzIjoiZ2JMVE8xRE9MdFZ2djZtejZNQVIxNEFHVlBpNGk5UFI5enpSb0NUaGFDOCIsInJlY2VpdmVyIjoiYWxwaGEiLCJzZW5kZXIiOiJiZXRhIiwic2VxdWVuY2UiOjEwLCJzZXNzaW9uIjoiYWxwaGEuMSIsInZlcnNpb24iOjF9.fYtdtoZvW2VWy_edummW_iybPGWOwtLUgromqKpBRM0\
      HTTP/1.1 204 No Content\r\n\r\n";

/// Each at a site of its own.
pub const STARTS: [Row; 12] = [
    (Ask::Start, b"", 0, DriveEnd::Early, 1),
    (Ask::Start, b"HTTP/1.1 204 No Con", 0, DriveEnd::Early, 1),
    (Ask::Start, NOTHING, 0, DriveEnd::Silent, 1),
    (
        Ask::Start,
        b"HTTP/1.1 100 Continue\r\n\r\nHTTP/1.1 204 No Content\r\n\r\nHTTP/1.1 500 Fault\r\n\r\n",
        0,
        DriveEnd::Silent,
        1,
    ),
    (
        Ask::Start,
        b"HTTP/1.1 409 Conflict\r\nContent-Type: text/plain\r\nContent-Length: 6\r\n\r\nstale\n",
        0,
        DriveEnd::Status { code: 409 },
        1,
    ),
    (
        Ask::Start,
        b"HTTP/1.0 200 OK\r\nContent-Length: 0\r\n\r\n",
        0,
        DriveEnd::NotHttp {
            fault: HttpFault::Version,
        },
        1,
    ),
    (
        Ask::Start,
        b"HTTP/1.1 200 OK\r\nContent-Length: 3\r\n\r\na.b",
        0,
        DriveEnd::Refused {
            fault: Refused::Jws {
                fault: JwsFault::Parts { count: 2 },
            },
        },
        2,
    ),
    (Ask::Start, NOTHING, 1, DriveEnd::Wire, 0),
    (Ask::Start, NOTHING, 2, DriveEnd::Wire, 0),
    (Ask::Start, NOTHING, 3, DriveEnd::Wire, 1),
    (Ask::Start, NOTHING, 4, DriveEnd::Silent, 1),
    (Ask::Start, TRANSFER, 0, DriveEnd::Committed, 11),
];

/// One after the other at one site.
pub const GOING_ON: [Row; 4] = [
    (Ask::Start, NOTHING, 1, DriveEnd::Wire, 0),
    (Ask::Resume, NOTHING, 0, DriveEnd::Silent, 1),
    (Ask::Resume, b"", 0, DriveEnd::Early, 1),
    (Ask::Recover, NOTHING, 0, DriveEnd::Silent, 1),
];
