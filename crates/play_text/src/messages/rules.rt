//! The message, conditions and steps of a script, and the answers to calls on them.

use crate::messages::text::Text;
use anyhow::{Result, bail};
use er7_tree::{Message, Path};
use hl7_filter::{Bytes, Cond};
use hl7_transform::{Pair, Step, StepCheck, StepFault, all_may_stand, apply, check_step};
use play_script::{bytes_of, first_word, shown, words_of};
use std::alloc::{AllocError, Global};
use std::mem;

/// The message, conditions and steps that calls speak of.
#[derive(Drop)]
pub struct Rules {
    alloc: Global,
    text: Text,
    conds: Vec<Cond>,
    steps: Vec<Step>,
}

/// The bytes of a word as a text of a rule.
fn text_of(alloc: Global, word: &str) -> Result<Bytes, AllocError> {
    Ok(Bytes::new(bytes_of(alloc, word)?))
}

/// The texts of words.
fn texts_of(alloc: Global, words: &str) -> Result<Vec<Bytes>, AllocError> {
    let mut texts = Vec::new(alloc);
    for word in words.split(' ') {
        texts.push(text_of(alloc, word)?)?;
    }
    Ok(texts)
}

/// The condition of a kind on a piece.
fn cond_on(alloc: Global, kind: &str, path: Path, words: &str) -> Result<Cond> {
    match kind {
        "exists" => Ok(Cond::Exists(path)),
        "equals" => Ok(Cond::Equals(path, text_of(alloc, words)?)),
        "starts" => Ok(Cond::Starts(path, text_of(alloc, words)?)),
        "contains" => Ok(Cond::Contains(path, text_of(alloc, words)?)),
        "one_of" => Ok(Cond::OneOf(path, texts_of(alloc, words)?)),
        _ => bail!("{kind} is no condition"),
    }
}

/// The condition that words say: its kind, the piece, and texts.
fn cond_of(alloc: Global, words: &str) -> Result<Cond> {
    let (kind, words) = first_word(words);
    let (path, words) = first_word(words);
    cond_on(alloc, kind, Path::parse(path)?, words)
}

/// The pair of two words.
fn pair_of(alloc: Global, from: &str, to: &str) -> Result<Pair, AllocError> {
    let from = text_of(alloc, from)?;
    let to = text_of(alloc, to)?;
    Ok(Pair { from, to })
}

/// The table of words that come in pairs.
fn table_of(alloc: Global, words: &[&str]) -> Result<Vec<Pair>, AllocError> {
    let mut table = Vec::new(alloc);
    for pair in words.chunks_exact(2) {
        if let [from, to] = pair {
            table.push(pair_of(alloc, from, to)?)?;
        }
    }
    Ok(table)
}

/// The lookup that words say: the piece, the default or `-` for none, and the table.
fn lookup_of(alloc: Global, words: &str) -> Result<Step> {
    let (path, words) = first_word(words);
    let (default, table) = first_word(words);
    let path = Path::parse(path)?;
    let table = table_of(alloc, &words_of(alloc, table)?)?;
    let default = match default {
        "-" => None,
        text => Some(text_of(alloc, text)?),
    };
    Ok(Step::Lookup {
        path,
        table,
        default,
    })
}

/// The copy that words say.
fn copy_of(words: &str) -> Result<Step> {
    let (from, to) = first_word(words);
    let from = Path::parse(from)?;
    let to = Path::parse(to)?;
    Ok(Step::Copy { from, to })
}

/// The setting of a value that words say.
fn set_of(alloc: Global, words: &str) -> Result<Step> {
    let (path, text) = first_word(words);
    let path = Path::parse(path)?;
    Ok(Step::Set(path, text_of(alloc, text)?))
}

/// The step that words say.
fn step_of(alloc: Global, words: &str) -> Result<Step> {
    let (kind, words) = first_word(words);
    match kind {
        "set" => set_of(alloc, words),
        "copy" => copy_of(words),
        "clear" => Ok(Step::Clear(Path::parse(words)?)),
        "lookup" => lookup_of(alloc, words),
        "remove" => Ok(Step::RemoveSegments(text_of(alloc, words)?)),
        _ => bail!("{kind} is no step"),
    }
}

/// Whether a transformer may have a step.
fn may_stand(alloc: Global, check: Result<(), StepCheck>) -> Result<String, AllocError> {
    match check {
        Ok(()) => String::from_str(alloc, "ok"),
        Err(check) => format!(in alloc; "refused {} {check:?}", check.code()),
    }
}

/// The result of steps.
fn told(alloc: Global, changed: &Result<Message, StepFault>) -> Result<String, AllocError> {
    match changed {
        Ok(changed) => shown(alloc, &changed.print()?),
        Err(StepFault::Stopped { place, cause }) => format!(in alloc; "stopped {place} {cause:?}"),
        Err(StepFault::NoMemory) => Err(AllocError),
    }
}

/// The message after steps.
fn after(alloc: Global, steps: &[Step], message: &Message) -> Result<String, AllocError> {
    if !all_may_stand(steps) {
        return String::from_str(alloc, "they may not stand");
    }
    told(alloc, &apply(steps, message.clone()?))
}

/// Whether the last two of a list are the same.
fn last_alike<T: PartialEq>(list: &[T]) -> bool {
    match list {
        [.., first, last] => first == last,
        _ => false,
    }
}

impl Rules {
    /// A message that is a header alone, no conditions and no steps.
    ///
    /// # Errors
    ///
    /// Where memory is refused.
    pub(crate) fn new(alloc: Global) -> Result<Rules> {
        Ok(Rules {
            alloc,
            text: Text::new(alloc)?,
            conds: Vec::new(alloc),
            steps: Vec::new(alloc),
        })
    }

    /// This many of the last conditions, which are then gone.
    fn members(&mut self, count: &str) -> Result<Vec<Cond>> {
        let first = self.conds.len().saturating_sub(count.parse()?);
        Ok(self.conds.split_off(first)?)
    }

    /// Whether a condition is true of the message. It is kept.
    fn keep(&mut self, cond: Cond) -> Result<String> {
        let truth = cond.holds(&self.text.message);
        self.conds.push(cond)?;
        Ok(format!(in self.alloc; "{}", truth?)?)
    }

    /// Whether the condition that words say is true of the message.
    fn cond(&mut self, words: &str) -> Result<String> {
        let cond = cond_of(self.alloc, words)?;
        self.keep(cond)
    }

    /// Whether this many of the last conditions are all true.
    fn all(&mut self, count: &str) -> Result<String> {
        let members = self.members(count)?;
        self.keep(Cond::All(members))
    }

    /// Whether any of this many of the last conditions is true.
    fn any(&mut self, count: &str) -> Result<String> {
        let members = self.members(count)?;
        self.keep(Cond::Any(members))
    }

    /// Whether the last condition is false.
    fn negated(&mut self) -> Result<String> {
        let Some(cond) = self.conds.pop() else {
            bail!("no condition to negate");
        };
        let cond = Box::new(self.alloc, cond)?;
        self.keep(Cond::Not(cond))
    }

    /// Whether a transformer may have the step that words say. It is kept.
    fn step(&mut self, words: &str) -> Result<String> {
        let step = step_of(self.alloc, words)?;
        let check = check_step(&step);
        self.steps.push(step)?;
        Ok(may_stand(self.alloc, check)?)
    }

    /// The message after the steps, which are then gone.
    fn applied(&mut self) -> Result<String> {
        let alloc = self.alloc;
        let steps = mem::replace(&mut self.steps, Vec::new(alloc));
        Ok(after(alloc, &steps, &self.text.message)?)
    }

    /// Whether the last two conditions say the same, and the last two steps.
    fn alike(&self) -> Result<String> {
        let conds = last_alike(&self.conds);
        let steps = last_alike(&self.steps);
        Ok(format!(in self.alloc; "conditions {conds}, steps {steps}")?)
    }

    /// Whether the last condition has at most this many levels.
    fn within(&self, levels: &str) -> Result<String> {
        let Some(cond) = self.conds.last() else {
            bail!("no condition");
        };
        let within = cond.is_within(levels.parse()?);
        Ok(format!(in self.alloc; "{within}")?)
    }

    /// Lets the conditions and steps go.
    fn clear(&mut self) -> Result<String> {
        self.conds.clear();
        self.steps.clear();
        Ok(String::from_str(self.alloc, "ok")?)
    }

    /// The answer to a call.
    ///
    /// # Errors
    ///
    /// Where there is no such call, its words can't be read, or memory is refused.
    pub(crate) fn play(&mut self, line: &str) -> Result<String> {
        let (call, words) = first_word(line);
        match call {
            "cond" => self.cond(words),
            "all" => self.all(words),
            "any" => self.any(words),
            "not" => self.negated(),
            "step" => self.step(words),
            "apply" => self.applied(),
            "drop" => self.clear(),
            "within" => self.within(words),
            "alike" => self.alike(),
            _ => self.text.answer(call, words),
        }
    }
}
