//! A drawing as the view of a script.
use crate::canvas::Canvas;
use crate::drawing::Drawing;
use crate::paper::Paper;
use ddcmp_io::Sink;
use ddcmp_line::command::ScriptCommand;
use ddcmp_line::{Recovered, Settled, View};
use ddcmp_pair::{Event, Pair, Reply, Watch};
use std::alloc::Global;

impl<P: Paper + Drop> Watch for Drawing<P> {
    fn on_step(&mut self, pair: &Pair, event: &Event, reply: &Reply) {
        self.step(pair, event, reply);
    }
}

impl<P: Paper + Drop> View for Drawing<P> {
    fn begins(&mut self, pair: &Pair, command: &ScriptCommand, front: Option<usize>) {
        self.begin(pair, command, front);
    }

    fn settled(&mut self, settled: &Settled) {
        self.put_settled(settled);
    }

    fn recovered(&mut self, recovered: &Recovered, done: bool) {
        self.put_recovered(recovered, done);
    }

    fn show<W: Sink>(&mut self, writer: &mut W) -> bool {
        self.paper.show(writer) && self.is_whole
    }
}

impl Drawing<Canvas> {
    /// Ends the picture, with a summary of the run below it if `closing` is the pair; returns
    /// whether no allocation failed.
    pub(crate) fn end<W: Sink>(
        &mut self,
        alloc: Global,
        writer: &mut W,
        closing: Option<&Pair>,
        counted: bool,
    ) -> bool {
        self.end_flights();
        self.paper.end(alloc, writer, closing, counted) && self.is_whole
    }
}
