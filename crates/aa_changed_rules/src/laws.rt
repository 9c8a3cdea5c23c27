//! Where executions lead that find a profile by an attachment.

ghost use Rattle.aa_changed_rules.specs.Leading.{AttachedAreLedTo};

/// A law and no work: the answer to an execution that finds a profile by an attachment which the other policy hasn't leads to that profile.
pub fn attachments_are_led_to()
    ensures { AttachedAreLedTo }
{}
