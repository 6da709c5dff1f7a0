//! A whole script.
use crate::desk::{Desk, may_open};
use crate::reading::read;
use books::{FlightBook, PlanBook};
use calendar_queue::CalendarQueue;
use console_read::{Book, Command, Queue, Unreadable, stopped};
use console_text::Lines;
use console_write::cannot_read;
use console_write::clock::room;
use console_write::stops::{refused, said};
use heap_queue::HeapQueue;
use queues::EventQueue;
use riding::Riding;
use std::alloc::Global;
use std::fmt;
use std::iter::Zip;
use std::ops::RangeFrom;

/// A script as it is answered: the lines that are left, each with its number, and the answers so far.
#[derive(Drop)]
struct Script<'a> {
    lines: Zip<RangeFrom<u64>, Lines<'a>>,
    heap: Global,
    out: &'a mut String,
}

impl Script<'_> {
    /// Answers a command before the console is open, but for an opening.
    fn closed(&mut self, command: &Command) -> fmt::Result {
        if let Err(stop) = stopped(command, None) {
            return said(self.out, command.keyword(), stop);
        }
        match command {
            Command::Room { slip, page, list } => room(self.out, *slip, *page, *list),
            _ => Ok(()),
        }
    }

    /// Answers the lines that are left, on an open console.
    fn rest<B: FlightBook, Q: EventQueue>(&mut self, desk: &mut Desk<B, Q>) -> fmt::Result {
        for (k, line) in self.lines.by_ref() {
            desk.line(line, k, self.out)?;
        }
        Ok(())
    }

    /// Opens over a book and a queue, and answers the lines that are left, unless the opening is refused.
    fn over<B: FlightBook + Drop, Q: EventQueue + Drop>(
        &mut self,
        book: B,
        queue: Q,
    ) -> fmt::Result {
        if let Err(refusal) = may_open(&book, &queue) {
            return refused(self.out, "open", u8::from(refusal));
        }
        said(self.out, "open", "ready")?;
        self.rest(&mut Desk::new(book, queue, self.heap))
    }

    /// Opens over a book, with the queue that is asked for.
    fn on_book<B: FlightBook + Drop>(&mut self, book: B, queue: Queue) -> fmt::Result {
        match queue {
            Queue::Heap => self.over(book, HeapQueue::new()),
            Queue::Calendar => self.over(book, CalendarQueue::new()),
        }
    }

    /// Opens over a book of plans, with the layers and the queue that are asked for.
    // No plainer as a loop or a recursion: each layer makes a book of another type.
    fn layered(&mut self, book: PlanBook, layers: u8, queue: Queue) -> fmt::Result {
        match layers {
            0 => self.on_book(book, queue),
            1 => self.on_book(Riding::over(book), queue),
            2 => self.on_book(Riding::over(Riding::over(book)), queue),
            3 => self.on_book(Riding::over(Riding::over(Riding::over(book))), queue),
            _ => self.on_book(
                Riding::over(Riding::over(Riding::over(Riding::over(book)))),
                queue,
            ),
        }
    }

    /// Opens as it is asked for.
    fn open(&mut self, book: Book, layers: u8, queue: Queue) -> fmt::Result {
        let book = match book {
            Book::Single => PlanBook::single_leg(),
            Book::Itinerary => PlanBook::itinerary(),
        };
        self.layered(book, layers, queue)
    }

    /// Answers line number k before the console is open.
    fn line(&mut self, line: &[u8], k: u64) -> fmt::Result {
        match read(line) {
            Ok(None) => Ok(()),
            Ok(
                Some(
                    Command::Open {
                        book,
                        layers,
                        queue,
                    },
                ),
            ) => self.open(book, layers, queue),
            Ok(Some(command)) => self.closed(&command),
            Err(Unreadable) => cannot_read(self.out, k),
        }
    }
}

/// Answers a script: appends the answer of each line. An opening that is not refused answers all the lines after it.
pub fn rehearse(input: &[u8], heap: Global, out: &mut String) -> fmt::Result {
    let lines = (1..).zip(Lines::new(input));
    let mut script = Script { lines, heap, out };
    // No plainer as a `for` over the lines: an opening takes those that are left. There are no more lines than bytes.
    for _ in input {
        let Some((k, line)) = script.lines.next() else {
            return Ok(());
        };
        script.line(line, k)?;
    }
    Ok(())
}
