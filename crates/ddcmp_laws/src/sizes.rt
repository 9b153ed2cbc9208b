//! The sizes that a station may have, in numbers.
ghost use Rattle.std.specs.Prelude.{◌≡◌, ◌≤◌, ◌↔◌, None};
ghost use Rattle.ddcmp_proto.specs.Config.{first_refusal};
ghost use Rattle.ddcmp_proto.specs.declared.config.Config.{Config as ConfigValue};

/// Exactly these sizes are accepted: a window and an inbox of 1 to 255 messages, messages of 1 to
/// 16383 bytes, and 0 to 16 bytes of fill.
pub fn sizes_taken()
    ensures { (sizes : ConfigValue) → (first_refusal sizes ≡ None)
        ↔ ((1 ≤ sizes.window) × (sizes.window ≤ 255)
        × (1 ≤ sizes.inbox) × (sizes.inbox ≤ 255)
        × (1 ≤ sizes.max) × (sizes.max ≤ 16383)
        × (sizes.syn ≤ 16)) }
{}
