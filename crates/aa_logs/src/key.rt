//! The keys of the fields that records are read by.

ghost use Rattle.std.specs.Prelude.{◌≡◌, ◌<◌, ◌∷◌, []};
ghost use Rattle.aa_logs.specs.declared.key.Key.TheVariants.{Apparmor, Kind, Profile, Label, Namespace, Pid, Operation, Info, Class, RequestedMask, Fsuid, Ouid, Capname, Name, Target, Name2, Family, SockType};
ghost use Rattle.aa_logs.specs.Keys.{number, among, key_of};

use crate::field::is_text;

/// A key that tells something of a record.
#[derive(Clone, Copy, Debug, PartialEq, Eq)]
pub(crate) enum Key {
    Apparmor,
    Kind,
    Profile,
    Label,
    Namespace,
    Pid,
    Operation,
    Info,
    Class,
    RequestedMask,
    Fsuid,
    Ouid,
    Capname,
    Name,
    Target,
    Name2,
    Family,
    SockType,
}

/// How many keys there are.
pub(crate) const KEYS: usize = 18;

/// Its place among them, from 0.
pub(crate) fn number(key: Key) -> usize
    ensures value { result ≡ number key }
    ensures within { result < 18 }
{
    match key {
        Key::Apparmor => 0,
        Key::Kind => 1,
        Key::Profile => 2,
        Key::Label => 3,
        Key::Namespace => 4,
        Key::Pid => 5,
        Key::Operation => 6,
        Key::Info => 7,
        Key::Class => 8,
        Key::RequestedMask => 9,
        Key::Fsuid => 10,
        Key::Ouid => 11,
        Key::Capname => 12,
        Key::Name => 13,
        Key::Target => 14,
        Key::Name2 => 15,
        Key::Family => 16,
        Key::SockType => 17,
    }
}

fn of_three(text: &[u8]) -> Option<Key>
    ensures { result ≡ among (Pid ∷ []) text.now }
{
    if is_text(text, "pid") {
        return Some(Key::Pid);
    }
    None
}

fn of_four(text: &[u8]) -> Option<Key>
    ensures { result ≡ among (Name ∷ Ouid ∷ Kind ∷ Info ∷ []) text.now }
{
    if is_text(text, "name") {
        return Some(Key::Name);
    }
    if is_text(text, "ouid") {
        return Some(Key::Ouid);
    }
    if is_text(text, "type") {
        return Some(Key::Kind);
    }
    if is_text(text, "info") {
        return Some(Key::Info);
    }
    None
}

fn of_five(text: &[u8]) -> Option<Key>
    ensures { result ≡ among (Fsuid ∷ Class ∷ Label ∷ Name2 ∷ []) text.now }
{
    if is_text(text, "fsuid") {
        return Some(Key::Fsuid);
    }
    if is_text(text, "class") {
        return Some(Key::Class);
    }
    if is_text(text, "label") {
        return Some(Key::Label);
    }
    if is_text(text, "name2") {
        return Some(Key::Name2);
    }
    None
}

fn of_six(text: &[u8]) -> Option<Key>
    ensures { result ≡ among (Family ∷ Target ∷ []) text.now }
{
    if is_text(text, "family") {
        return Some(Key::Family);
    }
    if is_text(text, "target") {
        return Some(Key::Target);
    }
    None
}

fn of_seven(text: &[u8]) -> Option<Key>
    ensures { result ≡ among (Profile ∷ Capname ∷ []) text.now }
{
    if is_text(text, "profile") {
        return Some(Key::Profile);
    }
    if is_text(text, "capname") {
        return Some(Key::Capname);
    }
    None
}

fn of_eight(text: &[u8]) -> Option<Key>
    ensures { result ≡ among (Apparmor ∷ []) text.now }
{
    if is_text(text, "apparmor") {
        return Some(Key::Apparmor);
    }
    None
}

fn of_nine(text: &[u8]) -> Option<Key>
    ensures { result ≡ among (Operation ∷ Namespace ∷ SockType ∷ []) text.now }
{
    if is_text(text, "operation") {
        return Some(Key::Operation);
    }
    if is_text(text, "namespace") {
        return Some(Key::Namespace);
    }
    if is_text(text, "sock_type") {
        return Some(Key::SockType);
    }
    None
}

fn of_fourteen(text: &[u8]) -> Option<Key>
    ensures { result ≡ among (RequestedMask ∷ []) text.now }
{
    if is_text(text, "requested_mask") {
        return Some(Key::RequestedMask);
    }
    None
}

/// The key that is spelled so.
#[tactic(auto, unfolding(crate::specs::Keys::key_of))]
pub(crate) fn key_of(text: &[u8]) -> Option<Key>
    ensures { result ≡ key_of text.now }
{
    match text.len() {
        3 => of_three(text),
        4 => of_four(text),
        5 => of_five(text),
        6 => of_six(text),
        7 => of_seven(text),
        8 => of_eight(text),
        9 => of_nine(text),
        14 => of_fourteen(text),
        _ => None,
    }
}
