ghost use Rattle.std.specs.Prelude.{◌≡◌, ◌≤◌, ℕ, Bool, false, List};
ghost use Rattle.alw_num.specs.declared.addresses.Line.{Line};
ghost use Rattle.alw_msg.specs.Contents.{ToMemory};
ghost use Rattle.alw_model.specs.LimitLess.{Directory, is_trapped, is_in_progress, hardware_act, trapped, handle};
ghost use Rattle.law_entry.specs.Entries.{EntryIsSound, ActsAlike};
ghost use Rattle.law_entry.specs.Courses.{HomeEvent, course_start, happen_all, ActsAsFullMap, one_by_one};

/// For one line, any number of hardware pointers from 1 on and any messages to memory, whoever sent
/// them: those acted on, by hardware or by the handler, leave the entry that a full map would have,
/// and send the same messages in the same order (ASPLOS 1991, sections 3 and 4). Where each trap is
/// handled before the next message comes, every message is acted on.
pub fn acts_as_full_map()
    ensures acts { (most : ℕ) → (body : Line) → (always : Bool) → (events : List HomeEvent) → 1 ≤ most →
        ActsAsFullMap body (happen_all most (course_start body always) events) }
    ensures sound { (most : ℕ) → (body : Line) → (always : Bool) → (events : List HomeEvent) → 1 ≤ most →
        EntryIsSound most (happen_all most (course_start body always) events).entry }
    ensures complete { (most : ℕ) → (body : Line) → (always : Bool) → (messages : List (ℕ × ToMemory)) →
        (happen_all most (course_start body always) (one_by_one messages)).acted ≡ messages }
{}

/// What hardware does to a message that doesn't trap is what a full map does, and keeps the entry
/// sound.
pub fn hardware_acts_as_full_map()
    ensures acts { (most : ℕ) → (d : Directory) → (i : ℕ) → (message : ToMemory) →
        EntryIsSound most d → is_trapped most d i message ≡ false → is_in_progress d.meta ≡ false → ActsAlike d i message (hardware_act d i message) }
    ensures sound { (most : ℕ) → (d : Directory) → (i : ℕ) → (message : ToMemory) →
        1 ≤ most → EntryIsSound most d → is_trapped most d i message ≡ false → is_in_progress d.meta ≡ false → EntryIsSound most (hardware_act d i message).0 }
{}

/// What the handler does to a message is what a full map does, whatever the entry; it keeps a sound
/// entry sound, as a trap does.
pub fn handler_acts_as_full_map()
    ensures acts { (d : Directory) → (i : ℕ) → (message : ToMemory) → ActsAlike d i message (handle d i message) }
    ensures sound { (most : ℕ) → (d : Directory) → (i : ℕ) → (message : ToMemory) → 1 ≤ most → EntryIsSound most d → EntryIsSound most (handle d i message).0 }
    ensures trapped { (most : ℕ) → (d : Directory) → EntryIsSound most d → EntryIsSound most (trapped d) }
{}
