//! A session that runs over devices from its beginning.
ghost use Rattle.std.specs.Prelude.{◌≡◌, ◌++◌, List, [], Option, Some, map};
ghost use Rattle.ddcmp_frame.specs.Reader.{StandsFor};
ghost use Rattle.ddcmp_session.specs.Session.{SessionView};
ghost use Rattle.ddcmp_io.specs.declared.carrier.End.TheVariants.{A};
ghost use Rattle.ddcmp_session.specs.Calls.{SessionDoes, SessionStep, Connected};
ghost use Rattle.ddcmp_session.specs.Calls.{after_session_steps};
ghost use Rattle.ddcmp_session.specs.Connections.{AreDone, after_all};
ghost use Rattle.ddcmp_session.specs.Devices.{BuffersView, GoesOn};
ghost use Rattle.ddcmp_session.specs.Traffic.{Traffic, no_traffic};
ghost use Rattle.ddcmp_session.specs.Lines.{GoesOver};
ghost use Rattle.ddcmp_session.specs.Devices.{nothing_read};
ghost use Rattle.ddcmp_laws.specs.Connections.{AreCalls, first_connection, first_connections};
ghost use Rattle.ddcmp_laws.specs.Loops.{DevicesDeliver, DevicesPipe, DevicesPipeAll};
ghost use Rattle.ddcmp_laws.specs.Loops.{DevicesPipeClosed, HasRun};
ghost use Rattle.ddcmp_laws.specs.OverLines.{HasRunOver};
ghost use Rattle.ddcmp_laws.specs.Pipe.{IsKeptByPipes, IsKeptOverConnections, Made, session_of};
ghost use Rattle.ddcmp_laws.specs.Sessions.{texts_of};

/// A new session that is connected and then runs over devices that report their traffic, as by
/// `ddcmp_session::Buffers`, has a history as in the other laws, from its beginning: so these apply
/// to it. Its bytes are those that were read from the devices and written to them. The bytes
/// written to its output, and then those queued for it, are the text of what it delivered and
/// reported.
pub fn runs_are_histories()
    ensures history { (made : Made) (connected now : SessionView) (held : BuffersView)
        (known : Option Traffic) → StandsFor made.line []
        → SessionDoes Connected [] (session_of made).session connected
        → StandsFor connected.link.station.line []
        → GoesOn nothing_read connected (Some no_traffic) held now known
        → (t : Traffic) × (known ≡ Some t) × HasRun made now held t }
    ensures text { (made : Made) (now : SessionView) (held : BuffersView) (t : Traffic)
        (ran : HasRun made now held t)
        → t.written ++ now.output.waiting
        ≡ texts_of made.options.form (after_session_steps ran.steps (session_of made)).shown }
{}

/// A new session that runs over devices, over one line after the other, as by `begin_line`, `run`,
/// `leave_line` and `close` of `ddcmp_session`, has a history from its beginning in which each line
/// starts afresh: as in the laws of sessions that are connected again. The bytes written to its
/// output, and then those queued for it, are the text of all that it delivered and reported.
pub fn runs_over_lines()
    ensures history { (made : Made) (now : SessionView) (held : BuffersView)
        (known : Option Traffic) → StandsFor made.line []
        → GoesOver nothing_read (session_of made).session (Some no_traffic) held now known
        → (t : Traffic) × (known ≡ Some t) × HasRunOver made now held t }
    ensures text { (made : Made) (now : SessionView) (held : BuffersView) (t : Traffic)
        (ran : HasRunOver made now held t)
        → t.written ++ now.output.waiting
        ≡ texts_of made.options.form
        (after_all ran.steps (first_connection made)).history.shown }
    ensures calls { (made other : Made) (steps : List SessionStep)
        → AreDone steps (first_connection made)
        → AreCalls (map (λ (step : SessionStep). (A, step)) steps)
        (first_connections made other) }
{}

/// Two such sessions over an honest line, each connected at most once, with their messages in
/// binary: if the bytes read from the input of one are a prefix of a file of messages that fit,
/// then the output of the other is a prefix of that file; and it is the whole file if all of it was
/// read, none of it is held, `is_delivered` holds for the one, and nothing is left to be delivered
/// or written at the other. In either form, if the one is closed and lost nothing, the other has
/// received all messages read from the input, and in binary its output is that file, too. Over
/// connections no premise about frames is needed.
pub fn devices_are_pipes()
    ensures to_b { IsKeptByPipes (λ first second p. DevicesPipe first second p.a p.b) }
    ensures to_a { IsKeptByPipes (λ first second p. DevicesPipe second first p.b p.a) }
    ensures all_to_b { IsKeptByPipes (λ first second p. DevicesPipeAll first second p.a p.b) }
    ensures all_to_a { IsKeptByPipes (λ first second p. DevicesPipeAll second first p.b p.a) }
    ensures connected_to_b { IsKeptOverConnections
        (λ first second p. DevicesPipe first second p.a p.b) }
    ensures connected_to_a { IsKeptOverConnections
        (λ first second p. DevicesPipe second first p.b p.a) }
    ensures connected_all_to_b { IsKeptOverConnections
        (λ first second p. DevicesPipeAll first second p.a p.b) }
    ensures connected_all_to_a { IsKeptOverConnections
        (λ first second p. DevicesPipeAll second first p.b p.a) }
    ensures received_at_b { IsKeptByPipes
        (λ first second p. DevicesDeliver first p.a p.b) }
    ensures closed_to_b { IsKeptByPipes
        (λ first second p. DevicesPipeClosed first second p.a p.b) }
    ensures received_at_a { IsKeptByPipes
        (λ first second p. DevicesDeliver second p.b p.a) }
    ensures closed_to_a { IsKeptByPipes
        (λ first second p. DevicesPipeClosed second first p.b p.a) }
    ensures connected_received_at_b { IsKeptOverConnections
        (λ first second p. DevicesDeliver first p.a p.b) }
    ensures connected_closed_to_b { IsKeptOverConnections
        (λ first second p. DevicesPipeClosed first second p.a p.b) }
    ensures connected_received_at_a { IsKeptOverConnections
        (λ first second p. DevicesDeliver second p.b p.a) }
    ensures connected_closed_to_a { IsKeptOverConnections
        (λ first second p. DevicesPipeClosed second first p.b p.a) }
{}
