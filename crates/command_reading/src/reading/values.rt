// What the next word adds to what was read.
ghost use Rattle.std.specs.Prelude.{◌≡◌, List, map, vec_items};
ghost use Rattle.std.specs.Option.{ok_or};
ghost use Rattle.command_reading.specs.Misuses.{Says, bad_value};
ghost use Rattle.command_options.specs.Named.{first_named};
ghost use Rattle.command_reading.specs.Readings.{read_so_far, nothing_read, list_given, number_given, with_flag, with_value, with_option, with_file, with_word, with_words};

use crate::bounds::CheckBounds;
use crate::misuse::Misuse;
use crate::reading::Reading;
use crate::verb::Verb;
use command_options::named::{Named, find_named};
use command_options::options::{FLAGS, Flag, KEYS, Key};
use command_options::settings::{KINDS, ORDERS, Settings};
use number_list::list::{ListError, read_list};
use std::alloc::Global;
use table_source::{Source, is_option};
use table_text::figures::value_within;

// The one of them that the option's value names.
fn value_named<'a, N: Named + Copy>(key: Key, all: &[N], word: &'a str) -> Result<N, Misuse<'a>>
    ensures { Says (λ x. x) (ok_or (first_named N.Named.spelled all.now word.now) (bad_value key word.now)) result }
{
    find_named(all, word).ok_or(Misuse::BadValue { option: key, word })
}

// The list that the option's value writes.
fn list_given<'a>(heap: Global, key: Key, word: &'a str) -> Result<Vec<u8>, Misuse<'a>>
    ensures { Says vec_items (list_given key word.now) result }
{
    read_list(heap, word.as_bytes()).map_err(|e| match e {
        ListError::NoList => Misuse::BadValue { option: key, word },
        ListError::NoMemory => Misuse::NoMemory,
    })
}

// The largest number that an option's value may be.
const MOST: u32 = 1_000_000;

// The number that the option's value writes.
fn number_given<'a>(key: Key, word: &'a str) -> Result<usize, Misuse<'a>>
    ensures { Says (λ n. n) (number_given key word.now) result }
{
    let value = value_within(word.as_bytes(), MOST).ok_or(Misuse::BadValue { option: key, word })?;
    // By `as`: there is no From that makes a usize of a u32.
    Ok(value as usize)
}

impl<'a> Reading<'a> {
    pub fn new() -> Reading<'a>
        ensures { read_so_far result ≡ nothing_read }
    {
        Reading {
            source: None,
            settings: Settings::new(),
            bounds: CheckBounds::new(),
            events: None,
            waiting: None,
        }
    }

    fn take_flag(&mut self, flag: Flag)
        ensures { read_so_far self.new ≡ with_flag (read_so_far self.old) flag }
    {
        match flag {
            Flag::HighFirst => self.settings.high_first = true,
            Flag::Porcelain => self.settings.porcelain = true,
            Flag::RequireSchedulable => self.bounds.require_schedulable = true,
            Flag::Quiet => self.bounds.quiet = true,
        }
    }

    fn take_value(&mut self, heap: Global, key: Key, word: &'a str) -> Result<(), Misuse<'a>>
        ensures { Says (λ _. read_so_far self.new) (with_value (read_so_far self.old) key word.now) result }
    {
        match key {
            Key::Kind => self.settings.kind = value_named(key, &KINDS, word)?,
            Key::Policy => self.settings.order = value_named(key, &ORDERS, word)?,
            Key::Ranks => self.settings.ranks = Some(list_given(heap, key, word)?),
            Key::Shorten => self.settings.shorten = Some(list_given(heap, key, word)?),
            Key::Events => self.events = Some(list_given(heap, key, word)?),
            Key::Nodes => self.bounds.nodes = number_given(key, word)?,
            Key::Visits => self.bounds.visits = number_given(key, word)?,
        }
        Ok(())
    }

    fn take_option(&mut self, verb: Verb, word: &'a str) -> Result<(), Misuse<'a>>
        ensures { Says (λ _. read_so_far self.new) (with_option verb (read_so_far self.old) word.now) result }
    {
        if let Some(flag) = find_named(&FLAGS, word) {
            if !verb.takes_flag(flag) {
                return Err(Misuse::NotHere(word));
            }
            self.take_flag(flag);
            return Ok(());
        }
        let key = find_named(&KEYS, word).ok_or(Misuse::UnknownOption(word))?;
        if !verb.takes_key(key) {
            return Err(Misuse::NotHere(word));
        }
        self.waiting = Some(key);
        Ok(())
    }

    fn take_file(&mut self, word: &'a str) -> Result<(), Misuse<'a>>
        ensures { Says (λ _. read_so_far self.new) (with_file (read_so_far self.old) (read_so_far self.old).from word.now) result }
    {
        if self.source.is_some() {
            return Err(Misuse::OneTooMany(word));
        }
        self.source = Some(Source::named(word));
        Ok(())
    }

    fn take_word(&mut self, heap: Global, verb: Verb, word: &'a str) -> Result<(), Misuse<'a>>
        ensures { Says (λ _. read_so_far self.new) (with_word verb (read_so_far self.old) self.old.waiting word.now) result }
    {
        if let Some(key) = self.waiting.take() {
            return self.take_value(heap, key, word);
        }
        if is_option(word) {
            self.take_option(verb, word)
        } else {
            self.take_file(word)
        }
    }

    pub fn take_words(
        &mut self,
        heap: Global,
        verb: Verb,
        words: &[&'a str],
    ) -> Result<(), Misuse<'a>>
        ensures { Says (λ _. read_so_far self.new) (with_words verb (read_so_far self.old) (map (λ x. x.now) words.now)) result }
    {
        for word in words {
            self.take_word(heap, verb, word)?;
        }
        Ok(())
    }
}
