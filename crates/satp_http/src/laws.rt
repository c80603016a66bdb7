// What holds of the definitions alone.
ghost use Rattle.satp_http.specs.Laws.{RequestsInAnyPieces, AnswersInAnyPieces, OneReadingOfRequests, OneReadingOfAnswers, RequestFaultInEachCutting, AnswerFaultInEachCutting, WrittenRequestIsRead, WrittenAnswerIsRead};

/// The requests that are taken are the list of the bytes that came, in whatever pieces.
pub fn law_requests_in_any_pieces()
    ensures { RequestsInAnyPieces }
{}

/// The answers that are taken are the list of the bytes that came, in whatever pieces.
pub fn law_answers_in_any_pieces()
    ensures { AnswersInAnyPieces }
{}

/// No bytes are read as two lists of requests.
pub fn law_one_reading_of_requests()
    ensures { OneReadingOfRequests }
{}

/// No bytes are read as two lists of answers.
pub fn law_one_reading_of_answers()
    ensures { OneReadingOfAnswers }
{}

/// A fault of requests doesn't depend on the pieces in which the bytes come.
pub fn law_request_fault_in_each_cutting()
    ensures { RequestFaultInEachCutting }
{}

/// A fault of answers doesn't depend on the pieces in which the bytes come.
pub fn law_answer_fault_in_each_cutting()
    ensures { AnswerFaultInEachCutting }
{}

/// What `write_request` writes is read as that one request, whatever follows.
pub fn law_written_request_is_read()
    ensures { WrittenRequestIsRead }
{}

/// What `write_response` writes is read as that one answer, whatever follows.
pub fn law_written_answer_is_read()
    ensures { WrittenAnswerIsRead }
{}
