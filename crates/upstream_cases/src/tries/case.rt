//! A case: a question, the form of a try at it, and a stream.
use crate::tries::lines::{form_of, octets_of, question_of};
use crate::tries::shown::{read_word, show_octets, show_read, show_taken};
use hickory_resolver_tries::belief::judge;
use hickory_resolver_tries::outcome::read_reply;
use hickory_resolver_tries::{Belief, MessageStream, TryForm, TryMessage};
use std::alloc::{AllocError, Global};

/// The question and the try that were said last, and a stream.
#[derive(Drop)]
pub struct Case {
    message: TryMessage,
    form: TryForm,
    stream: MessageStream,
}

impl Case {
    /// A try of number 0 at a question for the root.
    pub fn new(alloc: Global) -> anyhow::Result<Case> {
        let question = question_of(alloc, ". A")?;
        let form = form_of(alloc, "")?;
        Ok(Case {
            message: TryMessage::new(alloc, question)?,
            form,
            stream: MessageStream::new(alloc),
        })
    }

    /// Does what a line says, or prints it.
    pub fn take(&mut self, rt: &impl Print, alloc: Global, line: &str) -> anyhow::Result<()> {
        if let Some(text) = line.strip_prefix("ask ") {
            let question = question_of(alloc, text)?;
            self.message = TryMessage::new(alloc, question)?;
            return Ok(());
        }
        if let Some(text) = line.strip_prefix("try ") {
            self.form = form_of(alloc, text)?;
            return Ok(self.show_try(rt, alloc)?);
        }
        self.take_octets(rt, alloc, line)
    }

    fn take_octets(&mut self, rt: &impl Print, alloc: Global, line: &str) -> anyhow::Result<()> {
        let (word, text) = line.split_once(' ').unwrap_or((line, ""));
        match word {
            "came" => self.show_came(rt, alloc, &octets_of(alloc, text)?),
            "prefixes" => self.show_prefixes(rt, alloc, &octets_of(alloc, text)?),
            "piece" => self.show_piece(rt, alloc, &octets_of(alloc, text)?)?,
            _ => {
                let _ = rt.println(line);
            }
        }
        Ok(())
    }

    fn show_try(&self, rt: &impl Print, alloc: Global) -> Result<(), AllocError> {
        let octets = self.message.octets(alloc, &self.form)?;
        show_octets(rt, alloc, "sent", &octets)
    }

    fn show_came(&self, rt: &impl Print, alloc: Global, octets: &[u8]) {
        match judge(&self.message, &self.form, octets) {
            Belief::Believed => {
                show_read(rt, &read_reply(alloc, &self.message, &self.form, octets));
            }
            other => {
                let _ = rt.println(belief_word(other));
            }
        }
    }

    fn word_of(&self, alloc: Global, octets: &[u8]) -> &'static str {
        match judge(&self.message, &self.form, octets) {
            Belief::Believed => read_word(&read_reply(alloc, &self.message, &self.form, octets)),
            other => belief_word(other),
        }
    }

    // What the first octets are, from none to all: a line where that changes.
    fn show_prefixes(&self, rt: &impl Print, alloc: Global, octets: &[u8]) {
        let mut last = "";
        for end in 0..=octets.len() {
            let word = self.word_of(alloc, &octets[..end]);
            if word != last {
                let _ = println!(rt; "from {end} octets on: {word}");
            }
            last = word;
        }
    }

    fn show_piece(
        &mut self,
        rt: &impl Print,
        alloc: Global,
        octets: &[u8],
    ) -> Result<(), AllocError> {
        let mut rest = octets;
        for _ in 0..=octets.len() {
            let (message, behind) = self.stream.next(rest)?;
            if !show_taken(rt, alloc, &message)? {
                break;
            }
            rest = behind;
        }
        let held = self.stream.held_len();
        let _ = println!(rt; "held: {held}");
        Ok(())
    }
}

fn belief_word(belief: Belief) -> &'static str {
    match belief {
        Belief::Believed => "believed",
        Belief::OtherLetters => "other letters",
        Belief::OptRefused => "OPT is not known",
        Belief::NotBelieved => "not believed",
    }
}
