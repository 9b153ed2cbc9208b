//! A session does what its link does, and writes the text of that.
ghost use Rattle.std.specs.Prelude.{◌≡◌, ◌≤◌, ◌++◌, ℕ, false, List, length, map};
ghost use Rattle.hex.specs.Hex.{encode_lower};
ghost use Rattle.ddcmp_frame.specs.Reader.{ReaderView};
ghost use Rattle.ddcmp_input.specs.InBinary.{in_binary};
ghost use Rattle.ddcmp_io.specs.declared.line_kind.LineKind.{LineKind as LineKindValue};
ghost use Rattle.ddcmp_streams.specs.declared.options.Options.{Options as OptionsValue};
ghost use Rattle.ddcmp_streams.specs.declared.messages.MessageForm.TheVariants.{Binary, Digits};
ghost use Rattle.ddcmp_streams.specs.declared.messages.MessageForm.TheVariants.{EventLines, Events};
ghost use Rattle.ddcmp_laws.specs.MailLines.{mails_in};
ghost use Rattle.ddcmp_laws.specs.Links.{IsHistory, after_history, offered_in};
ghost use Rattle.ddcmp_session.specs.Calls.{SessionStep, new_session, IsSessionHistory};
ghost use Rattle.ddcmp_session.specs.Calls.{after_session_steps, Shown};
ghost use Rattle.ddcmp_laws.specs.Sessions.{IsPlain, link_steps_in, IsOfLink, messages_of, mail_in};
ghost use Rattle.ddcmp_laws.specs.Sessions.{IsTakenAsWritten};
ghost use Rattle.ddcmp_laws.specs.Sessions.{AreShort, history_begun, mail_among, texts_of};

/// Each list of calls of a new session of data messages without events makes a list of calls of its
/// link. These use and write the same bytes of the line; they offer the messages of the input, in
/// their order, each once, and all of them are accepted; and the messages that the session
/// delivered are those that they take, and then the first of the inbox, whose text isn't written
/// yet.
pub fn session_calls_are_link_calls()
    ensures calls { (options : OptionsValue) (kind : LineKindValue) (line : ReaderView)
        (steps : List SessionStep) → IsPlain options
        → IsSessionHistory steps (new_session options kind line)
        → IsHistory (link_steps_in steps (new_session options kind line))
        (history_begun options line) }
    ensures same { (options : OptionsValue) (kind : LineKindValue) (line : ReaderView)
        (steps : List SessionStep) → IsPlain options
        → IsSessionHistory steps (new_session options kind line)
        → IsOfLink options.form options.config.max
        (after_session_steps steps (new_session options kind line))
        (after_history (link_steps_in steps (new_session options kind line))
        (history_begun options line)) }
    ensures offers { (options : OptionsValue) (kind : LineKindValue) (line : ReaderView)
        (steps : List SessionStep) → IsPlain options
        → IsSessionHistory steps (new_session options kind line)
        → offered_in (link_steps_in steps (new_session options kind line))
        ≡ messages_of options.form options.config.max
        (after_session_steps steps (new_session options kind line)).input }
{}

/// A new session of data messages without events takes a message from its link, and so acknowledges
/// it, only once its text was written, unless it is to acknowledge messages early.
pub fn takes_what_is_written()
    ensures written { (options : OptionsValue) (kind : LineKindValue) (line : ReaderView)
        (steps : List SessionStep) → IsPlain options → options.acknowledge_early ≡ false
        → IsSessionHistory steps (new_session options kind line)
        → IsTakenAsWritten options.form
        (after_session_steps steps (new_session options kind line))
        (after_history (link_steps_in steps (new_session options kind line))
        (history_begun options line)).taken }
{}

/// The bytes that a new session wrote to standard output, and then those queued for it, are the
/// text of the messages that were delivered and of what was reported, in their order. In binary
/// they are the messages alone, each after its length; with events, a reader that skips each record
/// whose length has the top bit set gets exactly the messages. In lines, with events or without,
/// they are what follows `mail ` in each line that begins with it.
pub fn output_is_text_of()
    ensures text { (options : OptionsValue) (kind : LineKindValue) (line : ReaderView)
        (steps : List SessionStep)
        → IsSessionHistory steps (new_session options kind line)
        → (after_session_steps steps (new_session options kind line)).written
        ++ (after_session_steps steps
        (new_session options kind line)).session.output.waiting
        ≡ texts_of options.form
        (after_session_steps steps (new_session options kind line)).shown }
    ensures binary { (shown : List Shown) → texts_of Binary shown ≡ in_binary (mail_in shown) }
    ensures events { (shown : List Shown) → AreShort shown → (n : ℕ)
        → length (texts_of Events shown) ≤ n
        → mail_among n (texts_of Events shown) ≡ mail_in shown }
    ensures lines { (shown : List Shown) → mails_in (texts_of Digits shown)
        ≡ map encode_lower (mail_in shown) }
    ensures event_lines { (shown : List Shown) → mails_in (texts_of EventLines shown)
        ≡ map encode_lower (mail_in shown) }
{}
