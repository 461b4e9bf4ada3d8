ghost use Rattle.std.specs.Prelude.{◌≡◌, ◌≢◌, ◌∷◌, [], ℕ, MatchOption, map, slice_index, string_bytes};
ghost use Rattle.mongo_bench.specs.Task.{AsksTask, AsksNothing, IsTaskCount, login_word, size_of_frame, name_of_direction, name_of_hash, name_of_login, name_of_pass, name_of_shape, name_of_size};

/// The password of each derivation (RFC 5802, section 5).
pub const EXAMPLE_PASSWORD: &[u8] = b"pencil";

/// The salt of each derivation (RFC 5802, section 5).
pub const EXAMPLE_SALT: [u8; 12] = [
    0x41, 0x25, 0xC2, 0x47, 0xE4, 0x3A, 0xB1, 0xE9, 0x3C, 0x6D, 0xFF, 0x76,
];

/// The hash of a derivation.
#[derive(Clone, Copy, PartialEq, Eq, Debug)]
pub enum Hash {
    /// SHA-1.
    Sha1,
    /// SHA-256.
    Sha256,
}

/// What is done with a document.
#[derive(Clone, Copy, PartialEq, Eq, Debug)]
pub enum Pass {
    /// The elements of all levels are iterated over and counted.
    Iterate,
    /// It is judged readable or not.
    Readable,
}

/// A document that is made for a walk.
#[derive(Clone, Copy, PartialEq, Eq, Debug)]
pub enum DocumentShape {
    /// Documents and arrays in one another, with values of many kinds.
    Nested,
    /// Small elements, all of one level.
    Flat,
    /// One document in another, one level more than a readable document may have.
    TooDeep,
}

/// What is done with frames.
#[derive(Clone, Copy, PartialEq, Eq, Debug)]
pub enum Direction {
    /// They are written.
    Write,
    /// They are read into a buffer that is kept.
    Read,
    /// Each is read into a message that owns its parts.
    ReadOwned,
}

/// How long the frames are.
#[derive(Clone, Copy, PartialEq, Eq, Debug)]
pub enum FrameSize {
    /// 100 bytes.
    Small,
    /// 10000 bytes.
    Middle,
    /// 16777216 bytes.
    Large,
}

impl FrameSize {
    /// The bytes of a frame.
    pub fn bytes(self) -> usize
        ensures { result ≡ size_of_frame self }
    {
        match self {
            FrameSize::Small => 100,
            FrameSize::Middle => 10_000,
            FrameSize::Large => 16_777_216,
        }
    }
}

/// What the program is asked to do.
#[derive(Clone, Copy, PartialEq, Eq, Debug)]
pub enum BenchTask {
    /// Hi with this many steps.
    Derive(Hash, u32),
    /// So many passes over a document.
    Walk(Pass, DocumentShape, u32),
    /// The bytes of a document.
    Document(DocumentShape),
    /// So many frames of a size, written or read.
    Frames(Direction, FrameSize, u32),
    /// So many times the command of an insert.
    Insert(u32),
    /// So many logins of one user by SCRAM over this hash.
    Login(Hash, u32),
}

/// The task that `words` ask for: its name, the shape of its document or the direction and size of its frames where it
/// has them, and a count from 1 to 2^32 - 1 in decimal digits with no sign and no leading zero where it has one.
pub fn task_of(words: &[String]) -> Option<BenchTask>
    ensures { let texts = map string_bytes words.now in
        MatchOption result (AsksNothing texts) (AsksTask texts) }
{
    match words {
        [name, word] => task_of_two(name.as_str(), word.as_str()),
        [name, kind, count] => task_of_three(name.as_str(), kind.as_str(), count.as_str()),
        [name, direction, size, count] => frames_of(
            name.as_str(),
            direction.as_str(),
            size.as_str(),
            count.as_str(),
        ),
        _ => None,
    }
}

// The task of two words: a derivation, a document's bytes, or the command of an insert.
fn task_of_two(name: &str, word: &str) -> Option<BenchTask>
    ensures { MatchOption result (AsksNothing (name.now ∷ word.now ∷ [])) (AsksTask (name.now ∷ word.now ∷ [])) }
{
    if name == "document" {
        return Some(BenchTask::Document(shape_named(word)?));
    }
    if name == "insert" {
        return Some(BenchTask::Insert(count_of(word)?));
    }
    let hash = hash_of(name)?;
    Some(BenchTask::Derive(hash, count_of(word)?))
}

// The task of three words: logins, or passes over a document.
fn task_of_three(name: &str, kind: &str, count: &str) -> Option<BenchTask>
    ensures { MatchOption result (AsksNothing (name.now ∷ kind.now ∷ count.now ∷ [])) (AsksTask (name.now ∷ kind.now ∷ count.now ∷ [])) }
{
    if name == "login" {
        return login_task(kind, count);
    }
    walk_of(name, kind, count)
}

// Logins by the hash of that name.
fn login_task(kind: &str, count: &str) -> Option<BenchTask>
    ensures { MatchOption result (AsksNothing (login_word ∷ kind.now ∷ count.now ∷ [])) (AsksTask (login_word ∷ kind.now ∷ count.now ∷ [])) }
{
    let hash = login_hash_of(kind)?;
    Some(BenchTask::Login(hash, count_of(count)?))
}

// Passes over a document.
fn walk_of(name: &str, shape: &str, count: &str) -> Option<BenchTask>
    requires { name.now ≢ login_word }
    ensures { MatchOption result (AsksNothing (name.now ∷ shape.now ∷ count.now ∷ [])) (AsksTask (name.now ∷ shape.now ∷ count.now ∷ [])) }
{
    let pass = pass_of(name)?;
    let shape = shape_named(shape)?;
    Some(BenchTask::Walk(pass, shape, count_of(count)?))
}

// The task of four words: frames.
fn frames_of(name: &str, direction: &str, size: &str, count: &str) -> Option<BenchTask>
    ensures { MatchOption result (AsksNothing (name.now ∷ direction.now ∷ size.now ∷ count.now ∷ [])) (AsksTask (name.now ∷ direction.now ∷ size.now ∷ count.now ∷ [])) }
{
    if name != "frames" {
        return None;
    }
    let direction = direction_of(direction)?;
    let size = size_of(size)?;
    Some(BenchTask::Frames(direction, size, count_of(count)?))
}

// The hash of that name.
fn hash_of(name: &str) -> Option<Hash>
    ensures { MatchOption result ((hash : Hash) → name.now ≢ name_of_hash hash) (λ hash. name.now ≡ name_of_hash hash) }
{
    match name {
        "hi-sha1" => Some(Hash::Sha1),
        "hi-sha256" => Some(Hash::Sha256),
        _ => None,
    }
}

// The hash of the logins of that name.
fn login_hash_of(name: &str) -> Option<Hash>
    ensures { MatchOption result ((hash : Hash) → name.now ≢ name_of_login hash) (λ hash. name.now ≡ name_of_login hash) }
{
    match name {
        "SHA1" => Some(Hash::Sha1),
        "SHA256" => Some(Hash::Sha256),
        _ => None,
    }
}

// The pass of that name.
fn pass_of(name: &str) -> Option<Pass>
    ensures { MatchOption result ((pass : Pass) → name.now ≢ name_of_pass pass) (λ pass. name.now ≡ name_of_pass pass) }
{
    match name {
        "iterate" => Some(Pass::Iterate),
        "readable" => Some(Pass::Readable),
        _ => None,
    }
}

// The shape of that name.
fn shape_named(name: &str) -> Option<DocumentShape>
    ensures { MatchOption result ((shape : DocumentShape) → name.now ≢ name_of_shape shape) (λ shape. name.now ≡ name_of_shape shape) }
{
    match name {
        "nested" => Some(DocumentShape::Nested),
        "flat" => Some(DocumentShape::Flat),
        "too-deep" => Some(DocumentShape::TooDeep),
        _ => None,
    }
}

// The direction of that name.
fn direction_of(name: &str) -> Option<Direction>
    ensures { MatchOption result ((direction : Direction) → name.now ≢ name_of_direction direction) (λ direction. name.now ≡ name_of_direction direction) }
{
    match name {
        "write" => Some(Direction::Write),
        "read" => Some(Direction::Read),
        "read-owned" => Some(Direction::ReadOwned),
        _ => None,
    }
}

// The size of that name.
fn size_of(name: &str) -> Option<FrameSize>
    ensures { MatchOption result ((size : FrameSize) → name.now ≢ name_of_size size) (λ size. name.now ≡ name_of_size size) }
{
    match name {
        "100" => Some(FrameSize::Small),
        "10000" => Some(FrameSize::Middle),
        "16777216" => Some(FrameSize::Large),
        _ => None,
    }
}

/// The count that `text` writes: from 1 to 2^32 - 1 in decimal digits with no sign and no leading
/// zero.
fn count_of(text: &str) -> Option<u32>
    ensures { MatchOption result ((count : ℕ) → ¬ (IsTaskCount text.now count)) (IsTaskCount text.now) }
{
    // No text that begins with a sign or a zero begins above b'0'.
    if first_byte(text) > b'0' {
        text.parse().ok()
    } else {
        None
    }
}

/// The first byte of `text`, or 0 where it is empty.
fn first_byte(text: &str) -> u8
    ensures { result ≡ slice_index text.now 0 }
{
    text.as_bytes().first().copied().unwrap_or(0)
}
