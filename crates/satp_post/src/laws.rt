// What holds of the definitions alone.
ghost use Rattle.satp_post.specs.Laws.{PostsHearAnswers};

/// The answers to the posts of one connection are those of the bytes that were heard on it.
pub fn law_posts()
    ensures { PostsHearAnswers }
{}
