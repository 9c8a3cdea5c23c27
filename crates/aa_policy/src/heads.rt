//! The head of a profile: how it is named, where it attaches, its flags (apparmor.d(5), "Profile Head").

ghost use Rattle.std.specs.Prelude.{◌≡◌, ◌&&◌, [], ◌<◌, ◌≤◌, ◌+◌, true, List, Option, length, option_map, IfSome, IfNone, OnSome, OnErr, IfOk, IfErr};
ghost use Rattle.std.specs.Bool.{OnTrue, OnFalse};
ghost use Rattle.aa_words.specs.Splits.{WordData, word_data, is_one_of};
ghost use Rattle.aa_rules.specs.Faults.{is_word_fault, IsPlaceIn};
ghost use Rattle.aa_rules.specs.Grammar.{StartsAs, LacksAll, is_name_kind, is_path_kind, place_of};
ghost use Rattle.aa_rules.specs.RuleFaults.{IsFaultBy, naming_fault, is_name};
ghost use Rattle.aa_policy.specs.Heads.{HeadData, TitleData, AttachmentData, head_data, title_data, attachment_data, Stands, Fits, LacksFitting, OptionalPath, attached, attachment_of, IsNamed, IsPathNamed, IsTitle, idle_flags, known_flags, is_flag, is_the_flag, said_by, flags_with, OpensFlags, IsFlagList, IsFlags, IsOpening, IsHead, goes_on, BeginsPathNamed, BeginsProfile};
ghost use Rattle.aa_policy.specs.HeadFaults.{TitleFails, left_out_flags, flag_name_fault, flag_word_fault, flag_fault, contradict, FlagListFails, HeadStops, FlagsFail, OpeningFails, HeadFails};
ghost use Rattle.aa_rules.specs.Reading.{rest_of};

use aa_base::{PolicyFault, PolicyKind, Spot};
use aa_rules::{
    begins_with, fault, is_plain_name, is_right_name, keyword_stands, name_fault, path_at,
    profile_name_at, spot_of, word_of_kind,
};
use aa_words::{Word, WordKind};

/// What a profile attaches to, as it is written.
#[derive(Clone, Copy, Debug)]
pub struct AttachmentTree<'s> {
    /// Where its path stands.
    pub at: Spot,
    /// The path, as its raw bytes.
    pub path: &'s [u8],
}

/// How a profile is named, and where it attaches.
#[derive(Clone, Copy, Debug)]
pub struct TitleTree<'s> {
    /// Where its name stands.
    pub at: Spot,
    /// The name, as its raw bytes.
    pub name: &'s [u8],
    /// What it attaches to, if it attaches.
    pub attachment: Option<AttachmentTree<'s>>,
}

/// The flags that a head has, of those with an effect.
#[derive(Clone, Copy, Debug, PartialEq, Eq)]
pub struct HeadFlags {
    /// Requests are granted that no rule denies.
    pub complain: bool,
    /// Requests are refused that no rule grants. So it is without flags, too.
    pub enforce: bool,
    /// All that is granted or refused is reported.
    pub audit: bool,
}

/// The head of a profile as it is written.
#[derive(Clone, Copy, Debug)]
pub struct HeadTree<'s> {
    pub title: TitleTree<'s>,
    pub flags: HeadFlags,
}

/// The path at a place, if one stands there, and the place behind it.
fn optional_path<'w, 's>(words: &'w [Word<'s>], at: usize) -> (Option<&'w Word<'s>>, usize)
    ensures read { OptionalPath (rest_of words.now at) (option_map (λ w. word_data w.now) result.0) (rest_of words.now result.1) }
    ensures onward { at ≤ result.1 }
    ensures within { at ≤ length words.now → result.1 ≤ length words.now }
{
    match path_at(words, at) {
        Some(path) => (Some(path), at + 1),
        None => (None, at),
    }
}

/// A word as an attachment.
fn attached<'s>(word: &Word<'s>) -> AttachmentTree<'s>
    ensures { attachment_data result ≡ attached (word_data word.now) }
{
    AttachmentTree {
        at: spot_of(word),
        path: word.text,
    }
}

/// What a profile attaches to that is named behind the keyword: the path that is written, else
/// its name, if it is a path.
fn attachment_of<'s>(name: &Word<'s>, path: Option<&Word<'s>>) -> Option<AttachmentTree<'s>>
    ensures { option_map attachment_data result ≡ attachment_of (word_data name.now) (option_map (λ w. word_data w.now) path.entry) }
{
    match path {
        Some(path) => Some(attached(path)),
        None if begins_with(name.text, b'/') => Some(attached(name)),
        None => None,
    }
}

/// Why a head can't go on at a word behind its name: extended attributes are left out.
fn head_fault(words: &[Word], at: usize, end: Spot) -> PolicyFault
    ensures stops { HeadStops (rest_of words.now at) result.kind }
    ensures at { result.at ≡ place_of (rest_of words.now at) end }
    ensures kind { is_word_fault result.kind ≡ true }
    ensures place { IsPlaceIn words.now end result.at }
{
    if keyword_stands(words, at, "xattrs".as_bytes()) {
        return fault(PolicyKind::Unsupported, words, at, end);
    }
    fault(PolicyKind::Syntax, words, at, end)
}

/// A name and an attachment, where the keyword stands before them, and the place behind them.
fn named_of<'s>(
    words: &[Word<'s>],
    at: usize,
    top: bool,
    end: Spot,
) -> Result<(TitleTree<'s>, usize), PolicyFault>
    ensures found { IfOk result (λ r. IsNamed top (rest_of words.now at) (title_data r.0) (rest_of words.now r.1)) }
    ensures refused { OnErr result ((t : TitleData) (rest : List WordData) → IsNamed top (rest_of words.now at) t rest → ⊥) }
    ensures kind { IfErr result (λ e. e.kind ≡ naming_fault is_name_kind (rest_of words.now at)) }
    ensures at { IfErr result (λ e. e.at ≡ place_of (rest_of words.now at) end) }
    ensures cause { IfErr result (λ e. is_word_fault e.kind ≡ true) }
    ensures place { IfErr result (λ e. IsPlaceIn words.now end e.at) }
    ensures within { IfOk result (λ r. (at < r.1) × (r.1 ≤ length words.now)) }
{
    let Some(name) = profile_name_at(words, at) else {
        return Err(fault(PolicyKind::Syntax, words, at, end));
    };
    if !is_plain_name(name.text, top) {
        return Err(fault(name_fault(name.text), words, at, end));
    }
    let (path, next) = optional_path(words, at + 1);
    let title = TitleTree {
        at: spot_of(name),
        name: name.text,
        attachment: attachment_of(name, path),
    };
    Ok((title, next))
}

/// A path that is name and attachment, and the place behind it.
fn path_named_of<'s>(
    words: &[Word<'s>],
    at: usize,
    top: bool,
    end: Spot,
) -> Result<(TitleTree<'s>, usize), PolicyFault>
    ensures found { IfOk result (λ r. IsPathNamed top (rest_of words.now at) (title_data r.0) (rest_of words.now r.1)) }
    ensures refused { OnErr result ((t : TitleData) (rest : List WordData) → IsPathNamed top (rest_of words.now at) t rest → ⊥) }
    ensures kind { IfErr result (λ e. e.kind ≡ naming_fault is_path_kind (rest_of words.now at)) }
    ensures at { IfErr result (λ e. e.at ≡ place_of (rest_of words.now at) end) }
    ensures cause { IfErr result (λ e. is_word_fault e.kind ≡ true) }
    ensures place { IfErr result (λ e. IsPlaceIn words.now end e.at) }
    ensures within { IfOk result (λ r. (at < r.1) × (r.1 ≤ length words.now)) }
{
    let Some(path) = path_at(words, at) else {
        return Err(fault(PolicyKind::Syntax, words, at, end));
    };
    if !is_right_name(path.text, top) {
        return Err(fault(name_fault(path.text), words, at, end));
    }
    let title = TitleTree {
        at: spot_of(path),
        name: path.text,
        attachment: Some(attached(path)),
    };
    Ok((title, at + 1))
}

/// How a profile is named and where it attaches, and the place behind that.
fn title_of<'s>(
    words: &[Word<'s>],
    at: usize,
    top: bool,
    end: Spot,
) -> Result<(TitleTree<'s>, usize), PolicyFault>
    ensures found { IfOk result (λ r. IsTitle top (rest_of words.now at) (title_data r.0) (rest_of words.now r.1)) }
    ensures refused { OnErr result ((t : TitleData) (rest : List WordData) → IsTitle top (rest_of words.now at) t rest → ⊥) }
    ensures fails { IfErr result (IsFaultBy TitleFails (rest_of words.now at) end) }
    ensures cause { IfErr result (λ e. is_word_fault e.kind ≡ true) }
    ensures place { IfErr result (λ e. IsPlaceIn words.now end e.at) }
    ensures within { IfOk result (λ r. (at < r.1) × (r.1 ≤ length words.now)) }
{
    if keyword_stands(words, at, "profile".as_bytes()) {
        return named_of(words, at + 1, top, end);
    }
    path_named_of(words, at, top, end)
}

/// Whether a flag is read, and has no effect (apparmor.d(5), "Profile Head").
pub fn is_idle_flag(name: &[u8]) -> bool
    ensures { result ≡ is_one_of idle_flags name.now }
{
    name == "attach_disconnected".as_bytes() || name == "mediate_deleted".as_bytes()
}

/// Whether a flag is read.
fn is_known_flag(name: &[u8]) -> bool
    ensures { result ≡ is_one_of known_flags name.now }
{
    name == "complain".as_bytes()
        || name == "enforce".as_bytes()
        || name == "audit".as_bytes()
        || is_idle_flag(name)
}

/// Whether a word is a flag that is read, or a comma.
fn is_flag(kind: WordKind, text: &[u8]) -> bool
    ensures { result ≡ is_flag kind text.now }
{
    match kind {
        WordKind::Comma => true,
        WordKind::Name => is_known_flag(text),
        _ => false,
    }
}

/// The flag or the comma at a place.
#[tactic(auto, using(crate::proofs::HeadProductions::fits_word, crate::proofs::HeadProductions::lacks_word, crate::proofs::HeadProductions::lacks_past))]
fn flag_at<'w, 's>(words: &'w [Word<'s>], at: usize) -> Option<&'w Word<'s>>
    ensures found { IfSome result (λ w. Fits is_flag (rest_of words.now at) (word_data w.now) (rest_of words.now (at + 1))) }
    ensures missing { IfNone result (LacksFitting is_flag (rest_of words.now at)) }
    ensures within { OnSome result (at < length words.now) }
{
    if at >= words.len() {
        return None;
    }
    let word = &words[at];
    if !is_flag(word.kind, word.text) {
        return None;
    }
    Some(word)
}

/// Whether a word is this flag.
fn is_the_flag(word: &Word, flag: &[u8]) -> bool
    ensures { result ≡ is_the_flag flag.now word.now.kind word.now.text.now }
{
    match word.kind {
        WordKind::Name => word.text == flag,
        _ => false,
    }
}

impl HeadFlags {
    /// Those of a head without flags.
    fn none() -> HeadFlags
        ensures { result ≡ said_by [] }
    {
        HeadFlags {
            complain: false,
            enforce: false,
            audit: false,
        }
    }

    /// These with one word more.
    fn with_word(self, word: &Word) -> HeadFlags
        ensures { result ≡ flags_with self (word_data word.now) }
    {
        HeadFlags {
            complain: self.complain || is_the_flag(word, "complain".as_bytes()),
            enforce: self.enforce || is_the_flag(word, "enforce".as_bytes()),
            audit: self.audit || is_the_flag(word, "audit".as_bytes()),
        }
    }

    /// Whether the profile is to complain and to enforce.
    fn contradict(self) -> bool
        ensures { result ≡ contradict self }
    {
        self.complain && self.enforce
    }
}

/// Whether a word is a flag that the rules of this crate leave out.
fn is_left_out_flag(name: &[u8]) -> bool
    ensures { result ≡ is_one_of left_out_flags name.now }
{
    name == "kill".as_bytes()
        || name == "unconfined".as_bytes()
        || name == "prompt".as_bytes()
        || name == "default_allow".as_bytes()
        || name == "xattrs".as_bytes()
}

/// Why a name isn't read as a flag.
fn flag_name_fault(name: &[u8]) -> PolicyKind
    ensures kind { result ≡ flag_name_fault name.now }
    ensures cause { is_word_fault result ≡ true }
{
    if is_left_out_flag(name) {
        PolicyKind::Unsupported
    } else {
        PolicyKind::UnknownWord
    }
}

/// Why a word among the flags isn't one: a flag with a value is left out.
fn flag_word_fault(word: &Word, behind_flag: bool) -> PolicyKind
    ensures kind { result ≡ flag_word_fault behind_flag word.now.kind word.now.text.now }
    ensures cause { is_word_fault result ≡ true }
{
    match word.kind {
        WordKind::Name => flag_name_fault(word.text),
        WordKind::Equals if behind_flag => PolicyKind::Unsupported,
        _ => PolicyKind::Syntax,
    }
}

/// Why the flags don't go on at a place, which stands behind a flag or not.
#[tactic(auto, using(aa_rules::proofs::Places::here, aa_rules::proofs::Places::nothing_here))]
fn flag_fault(words: &[Word], at: usize, behind_flag: bool) -> PolicyKind
    ensures kind { result ≡ flag_fault behind_flag (rest_of words.now at) }
    ensures cause { is_word_fault result ≡ true }
{
    match words.get(at) {
        Some(word) => flag_word_fault(word, behind_flag),
        None => PolicyKind::Syntax,
    }
}

/// Whether a word is a name.
fn is_name(word: &Word) -> bool
    ensures { result ≡ is_name word.now.kind }
{
    word.kind == WordKind::Name
}

/// The flags, of which the first stands at `start`, and the place behind the parenthesis that
/// closes them. Of `complain` and `enforce` the later one is refused.
fn flag_list_of(words: &[Word], start: usize, end: Spot) -> Result<(HeadFlags, usize), PolicyFault>
    ensures found { IfOk result (λ r. IsFlagList (rest_of words.now start) r.0 (rest_of words.now r.1)) }
    ensures refused { OnErr result ((flags : HeadFlags) (rest : List WordData) → IsFlagList (rest_of words.now start) flags rest → ⊥) }
    ensures fails { IfErr result (IsFaultBy FlagListFails (rest_of words.now start) end) }
    ensures cause { IfErr result (λ e. is_word_fault e.kind ≡ true) }
    ensures place { IfErr result (λ e. IsPlaceIn words.now end e.at) }
    ensures within { IfOk result (λ r. (start < r.1) × (r.1 ≤ length words.now)) }
{
    let mut flags = HeadFlags::none();
    let mut behind_flag = false;
    let mut at = start;
    'flags: while word_of_kind(words, at, WordKind::RightParen).is_none() {
        let Some(word) = flag_at(words, at) else {
            return Err(fault(flag_fault(words, at, behind_flag), words, at, end));
        };
        let more = flags.with_word(word);
        if more.contradict() {
            return Err(fault(PolicyKind::Syntax, words, at, end));
        }
        flags = more;
        behind_flag = is_name(word);
        at += 1;
    }
    Ok((flags, at + 1))
}

/// The place behind the parenthesis that opens the flags.
fn flags_start(words: &[Word], at: usize, end: Spot) -> Result<usize, PolicyFault>
    ensures found { IfOk result (λ r. OpensFlags (rest_of words.now at) (rest_of words.now r)) }
    ensures refused { OnErr result ((rest : List WordData) → OpensFlags (rest_of words.now at) rest → ⊥) }
    ensures fails { IfErr result (IsFaultBy FlagsFail (rest_of words.now at) end) }
    ensures cause { IfErr result (λ e. is_word_fault e.kind ≡ true) }
    ensures place { IfErr result (λ e. IsPlaceIn words.now end e.at) }
    ensures within { IfOk result (λ r. (at < r) × (r ≤ length words.now)) }
{
    if word_of_kind(words, at, WordKind::LeftParen).is_some() {
        return Ok(at + 1);
    }
    if !keyword_stands(words, at, "flags".as_bytes()) {
        return Err(head_fault(words, at, end));
    }
    let equals = at + 1;
    let Some(_) = word_of_kind(words, equals, WordKind::Equals) else {
        return Err(head_fault(words, equals, end));
    };
    let paren = equals + 1;
    let Some(_) = word_of_kind(words, paren, WordKind::LeftParen) else {
        return Err(head_fault(words, paren, end));
    };
    Ok(paren + 1)
}

/// The flags that stand there, and the place behind them.
fn flags_of(words: &[Word], at: usize, end: Spot) -> Result<(HeadFlags, usize), PolicyFault>
    ensures found { IfOk result (λ r. IsFlags (rest_of words.now at) r.0 (rest_of words.now r.1)) }
    ensures refused { OnErr result ((flags : HeadFlags) (rest : List WordData) → IsFlags (rest_of words.now at) flags rest → ⊥) }
    ensures fails { IfErr result (IsFaultBy FlagsFail (rest_of words.now at) end) }
    ensures cause { IfErr result (λ e. is_word_fault e.kind ≡ true) }
    ensures place { IfErr result (λ e. IsPlaceIn words.now end e.at) }
    ensures within { IfOk result (λ r. (at < r.1) × (r.1 ≤ length words.now)) }
{
    let inside = flags_start(words, at, end)?;
    flag_list_of(words, inside, end)
}

/// The flags that may stand before the brace that opens a body, and the place behind that brace.
fn opening_of(words: &[Word], at: usize, end: Spot) -> Result<(HeadFlags, usize), PolicyFault>
    ensures found { IfOk result (λ r. IsOpening (rest_of words.now at) r.0 (rest_of words.now r.1)) }
    ensures refused { OnErr result ((flags : HeadFlags) (rest : List WordData) → IsOpening (rest_of words.now at) flags rest → ⊥) }
    ensures fails { IfErr result (IsFaultBy OpeningFails (rest_of words.now at) end) }
    ensures cause { IfErr result (λ e. is_word_fault e.kind ≡ true) }
    ensures place { IfErr result (λ e. IsPlaceIn words.now end e.at) }
    ensures within { IfOk result (λ r. (at < r.1) × (r.1 ≤ length words.now)) }
{
    if word_of_kind(words, at, WordKind::Open).is_some() {
        return Ok((HeadFlags::none(), at + 1));
    }
    let (flags, brace) = flags_of(words, at, end)?;
    let Some(_) = word_of_kind(words, brace, WordKind::Open) else {
        return Err(head_fault(words, brace, end));
    };
    Ok((flags, brace + 1))
}

/// The head of a profile, of the top level or of a child, and the place behind its opening brace.
pub fn head_of<'s>(
    words: &[Word<'s>],
    at: usize,
    top: bool,
    end: Spot,
) -> Result<(HeadTree<'s>, usize), PolicyFault>
    ensures found { IfOk result (λ r. IsHead top (rest_of words.now at) (head_data r.0) (rest_of words.now r.1)) }
    ensures refused { OnErr result ((h : HeadData) (rest : List WordData) → IsHead top (rest_of words.now at) h rest → ⊥) }
    ensures fails { IfErr result (IsFaultBy (HeadFails top) (rest_of words.now at) end) }
    ensures cause { IfErr result (λ e. is_word_fault e.kind ≡ true) }
    ensures place { IfErr result (λ e. IsPlaceIn words.now end e.at) }
    ensures within { IfOk result (λ r. (at < r.1) × (r.1 ≤ length words.now)) }
{
    let (title, after) = title_of(words, at, top, end)?;
    let (flags, body) = opening_of(words, after, end)?;
    Ok((HeadTree { title, flags }, body))
}

/// Whether a word behind a path makes it the name of a profile.
fn goes_on(kind: WordKind, text: &[u8]) -> bool
    ensures { result ≡ goes_on kind text.now }
{
    match kind {
        WordKind::Open | WordKind::LeftParen => true,
        WordKind::Name => text == "flags".as_bytes() || text == "xattrs".as_bytes(),
        _ => false,
    }
}

/// The word at a place, if it makes a path before it the name of a profile.
#[tactic(auto, using(crate::proofs::HeadProductions::fits_word, crate::proofs::HeadProductions::lacks_word, crate::proofs::HeadProductions::lacks_past))]
fn going_on_at<'w, 's>(words: &'w [Word<'s>], at: usize) -> Option<&'w Word<'s>>
    ensures found { IfSome result (λ w. Fits goes_on (rest_of words.now at) (word_data w.now) (rest_of words.now (at + 1))) }
    ensures missing { IfNone result (LacksFitting goes_on (rest_of words.now at)) }
{
    if at >= words.len() {
        return None;
    }
    let word = &words[at];
    if !goes_on(word.kind, word.text) {
        return None;
    }
    Some(word)
}

/// Whether a profile begins at a word of a body: at its keyword, or at a path that names it.
pub fn begins_profile(words: &[Word], at: usize) -> bool
    ensures yes { OnTrue result (BeginsProfile (rest_of words.now at)) }
    ensures no { OnFalse result (BeginsProfile (rest_of words.now at) → ⊥) }
{
    if keyword_stands(words, at, "profile".as_bytes()) {
        return true;
    }
    if path_at(words, at).is_none() {
        return false;
    }
    going_on_at(words, at + 1).is_some()
}
