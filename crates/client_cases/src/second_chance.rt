//! A cache that gives a second chance, and what lines do with it: what is stored in it and asked of it, and floods of
//! names that are stored once.
use crate::words::numbers_of;
use second_chance_cache::{CacheBounds, SecondChanceCache};
use std::alloc::{AllocError, Global};

/// Does what each line says, or prints it.
pub fn run(rt: &impl Print, alloc: Global, cases: &str) -> Result<(), AllocError> {
    let mut case = Case::new(alloc);
    for line in cases.lines() {
        case.take(rt, alloc, line)?;
    }
    Ok(())
}

// A cache of numbers, and how many names were stored by floods.
#[derive(Drop)]
struct Case {
    cache: SecondChanceCache<u64>,
    flooded: u64,
}

impl Case {
    // No entries, and none may be.
    fn new(alloc: Global) -> Case {
        let bounds = CacheBounds {
            entries: 0,
            octets: 0,
        };
        Case {
            cache: SecondChanceCache::new(alloc, bounds),
            flooded: 0,
        }
    }

    fn take(&mut self, rt: &impl Print, alloc: Global, line: &str) -> Result<(), AllocError> {
        let (word, text) = line.split_once(' ').unwrap_or((line, ""));
        match word {
            "cache" | "flood" | "names" | "ask" => {
                self.take_numbers(rt, alloc, word, &numbers_of(alloc, text)?)
            }
            "store" | "get" | "peek" => {
                let (key, rest) = text.split_once(' ').unwrap_or((text, ""));
                self.take_key(rt, word, key, &numbers_of(alloc, rest)?)
            }
            "remove" => {
                self.cache.remove(text.as_bytes());
                Ok(())
            }
            "without" => {
                self.cache
                    .remove_where(|key| key.starts_with(text.as_bytes()));
                Ok(())
            }
            _ => {
                self.take_word(rt, line);
                Ok(())
            }
        }
    }

    fn take_word(&mut self, rt: &impl Print, line: &str) {
        match line {
            "clear" => self.cache.clear(),
            "held" => show_held(rt, self.cache.len(), self.cache.octets()),
            _ => {
                let _ = rt.println(line);
            }
        }
    }

    // Bounds: entries, octets. A flood: so many names that no line stored, each of this weight, for a day from this
    // second. Names: the same of names by number. Asked: so many of these, at this second.
    fn take_numbers(
        &mut self,
        rt: &impl Print,
        alloc: Global,
        word: &str,
        numbers: &[u64],
    ) -> Result<(), AllocError> {
        match (word, numbers) {
            ("cache", [entries, octets]) => {
                let entries = *entries as usize;
                let octets = *octets;
                self.cache = SecondChanceCache::new(alloc, CacheBounds { entries, octets });
            }
            ("flood", [count, weight, now]) => {
                for _ in 0..*count {
                    self.flooded = self.flooded.saturating_add(1);
                    self.store_name(alloc, "flood", self.flooded, 0, *weight, *now)?;
                }
            }
            ("names", [count, weight, now]) => {
                for value in 0..*count {
                    self.store_name(alloc, "name", value, value, *weight, *now)?;
                }
            }
            ("ask", [count, now]) => self.ask_names(rt, alloc, *count, *now)?,
            _ => {}
        }
        Ok(())
    }

    // A value, its weight, its deadline and the second; or the second.
    fn take_key(
        &mut self,
        rt: &impl Print,
        word: &str,
        key: &str,
        numbers: &[u64],
    ) -> Result<(), AllocError> {
        match (word, numbers) {
            ("store", [value, weight, deadline, now]) => {
                self.cache
                    .store(key.as_bytes(), *value, *weight, *deadline, *now)?;
            }
            ("get", [now]) => show(
                rt,
                "get",
                key,
                self.cache.get(key.as_bytes(), *now).copied(),
            ),
            (_, [now]) => show(
                rt,
                "peek",
                key,
                self.cache.peek(key.as_bytes(), *now).copied(),
            ),
            _ => {}
        }
        Ok(())
    }

    fn store_name(
        &mut self,
        alloc: Global,
        word: &str,
        number: u64,
        value: u64,
        weight: u64,
        now: u64,
    ) -> Result<(), AllocError> {
        let name = format!(in alloc; "{word} {number}")?;
        let deadline = now.saturating_add(86400);
        self.cache
            .store(name.as_bytes(), value, weight, deadline, now)?;
        Ok(())
    }

    // Prints how many are told.
    fn ask_names(
        &mut self,
        rt: &impl Print,
        alloc: Global,
        count: u64,
        now: u64,
    ) -> Result<(), AllocError> {
        let mut told = 0_u64;
        for value in 0..count {
            let name = format!(in alloc; "name {value}")?;
            if self.cache.get(name.as_bytes(), now).is_some() {
                told = told.saturating_add(1);
            }
        }
        let _ = println!(rt; "asked {count}, told {told}");
        Ok(())
    }
}

fn show_held(rt: &impl Print, entries: usize, octets: u64) {
    let _ = println!(rt; "held {entries} {octets}");
}

fn show(rt: &impl Print, word: &str, key: &str, told: Option<u64>) {
    let _ = match told {
        Some(value) => println!(rt; "{word} {key} {value}"),
        None => println!(rt; "{word} {key} none"),
    };
}
