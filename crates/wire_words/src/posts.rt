// What a post asks, and what a reply to it comes to for the service that posted it.
ghost use Rattle.std.specs.Prelude.{◌≡◌};
ghost use Rattle.wire_words.specs.Posts.{ReadsWordsAlone, asking_of, given_to, post_reply, post_word};

use repair_messages::{AnswerMessage, Post, RefusalWord};
use service_events::{PostReply, PostWord};
use wire_replies::{Asking, Outgoing};

/// What the peer is asked to which a post is sent, so that its reply can be read.
pub fn asking_of(post: &Post) -> Asking
    ensures { result ≡ asking_of post.now }
{
    match post {
        Post::Set(_) => Asking::Set,
        Post::Token(_) => Asking::Token,
        Post::Fetch(_) => Asking::Fetch,
    }
}

#[tactic(auto, unfolding(crate::specs::Posts::post_word))]
fn post_word(word: &str) -> Option<PostWord>
    ensures { result ≡ post_word word.now }
{
    match RefusalWord::said(word) {
        Some(word) => PostWord::refusing(word),
        None => None,
    }
}

fn given_to(post: &Post, answer: Option<AnswerMessage>) -> Option<PostReply>
    ensures { result ≡ given_to post.now answer }
{
    match post {
        Post::Fetch(_) => answer.map(PostReply::Given),
        Post::Set(_) | Post::Token(_) => None,
    }
}

/// What a reply says of the post that it answers: a fetch is given its answer. None exactly where it is an answer that
/// wasn't fetched, or refuses with a word that refuses no post: then nothing is noted of it, and the post is sent again.
#[tactic(auto, using(crate::proofs::TableLaws::words_alone))]
pub fn post_reply(post: &Post, reply: Outgoing) -> Option<PostReply>
    ensures reply { result ≡ post_reply post.now reply }
    ensures alone { ReadsWordsAlone post.now reply }
{
    match reply {
        Outgoing::Answered { answer, .. } => given_to(post, answer),
        Outgoing::Ack(ack) => Some(PostReply::Acked(ack)),
        Outgoing::Confirm(confirm) => Some(PostReply::Confirmed(confirm)),
        Outgoing::Refused { word, number } => match post_word(word.as_str()) {
            Some(word) => Some(PostReply::Refused { word, number }),
            None => None,
        },
    }
}
