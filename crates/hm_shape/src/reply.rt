//! A caller's reply to a stage, in a word of its own.
//!
//! ```text
//!   63 .. 34   33 .. 2   1 .. 0
//! +----------+---------+--------+
//! | 0        | number  | kind   |
//! +----------+---------+--------+
//! ```
//!
//! A caller that has not replied yet has the word 0.
ghost use Rattle.std.specs.Prelude.{◌≡◌, ◌≢◌, ◌%◌, ◌^◌, ◌<◌, ◌≤◌, ◌↔◌, ◌⊎◌, Some, IfSome, IsNone};

/// What a number of 1 adds to the word of a reply: a kind takes 2 bits.
const NUMBER_UNIT: u64 = 4;

/// Words of replies are below this: a number of 32 bits and a kind take 34.
pub const REPLIES_END: u64 = 1 << 34;

/// What a caller tells in a reply.
#[derive(Clone, Copy, Debug, PartialEq, Eq)]
pub enum ReplyKind {
    /// To Join: the caller has joined.
    Joined,
    /// To First: the caller's scan ended clean. To Second: it has met no from-space since.
    Clean,
    /// To Second: it has met from-space since its scan.
    Dirty,
}

impl ReplyKind {
    ghost use Rattle.hm_shape.specs.Words.{kind_number};

    // The number of the kind.
    fn number(self) -> u64
        ensures { result ≡ kind_number self }
    {
        match self {
            ReplyKind::Joined => 1,
            ReplyKind::Clean => 2,
            ReplyKind::Dirty => 3,
        }
    }

    // The kind of the number; none where it is 0.
    fn numbered(number: u64) -> Option<ReplyKind>
        requires { number < NUMBER_UNIT }
        ensures packs { IfSome result (λ kind. kind_number kind ≡ number) }
        ensures back { (kind : ReplyKind) → kind_number kind ≡ number → result ≡ Some kind }
        ensures none { IsNone result ↔ (number ≡ 0) }
    {
        match number {
            0 => None,
            1 => Some(ReplyKind::Joined),
            2 => Some(ReplyKind::Clean),
            _ => Some(ReplyKind::Dirty),
        }
    }
}

/// A reply to a stage.
#[derive(Clone, Copy, Debug, PartialEq, Eq)]
pub struct Reply {
    /// The number of the stage that it replies to.
    pub number: u32,
    /// What it tells.
    pub kind: ReplyKind,
}

impl Reply {
    ghost use Rattle.hm_shape.specs.Words.{IsReply, reply_word};

    /// The word of the reply. It is not 0, and no other reply has it.
    pub fn pack(&self) -> u64
        ensures value { result ≡ reply_word self.now }
        ensures nonzero { 0 < result }
        ensures apart { (other : Reply) → reply_word other ≡ result → other ≡ self.now }
    {
        u64::from(self.number) * NUMBER_UNIT + self.kind.number()
    }

    /// The reply of the word; none where its kind is 0, or its number takes more than 32 bits.
    pub fn unpack(word: u64) -> Option<Reply>
        ensures packs { IfSome result (λ reply. reply_word reply ≡ word) }
        ensures back { (reply : Reply) → IsReply reply → reply_word reply ≡ word
            → result ≡ Some reply }
        ensures none { IsNone result ↔ ((word % 4 ≡ 0) ⊎ (2 ^ 34 ≤ word)) }
        ensures exact { IsNone result
            ↔ ((reply : Reply) → IsReply reply → reply_word reply ≢ word) }
    {
        let kind = ReplyKind::numbered(word % NUMBER_UNIT)?;
        let number = u32::try_from(word / NUMBER_UNIT).ok()?;
        Some(Reply { number, kind })
    }
}
