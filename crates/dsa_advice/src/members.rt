//! The members of a refused job, as far as its diagnosis looks at them: what is at the names that jobs have, and one
//! other name.

use serde::{Deserialize, Deserializer, Format, Kind, Name};
use std::alloc::{AllocError, Global};

/// The names that are known of an object.
type Names = [&'static str; 7];

/// The names of the members of jobs to plan, to judge or to check, in their order.
const JOB_MEMBERS: Names = [
    "certificate",
    "do",
    "list",
    "plan",
    "portal",
    "settings",
    "staging",
];

/// The names of the members of settings.
pub(crate) const SETTINGS_MEMBERS: Names = [
    "version",
    "greatest_batch",
    "greatest_transfer",
    "lone",
    "batch",
    "fence",
    "staging",
];

/// A value, as far as a diagnosis looks at it.
#[derive(Drop)]
pub(crate) enum SeenValue {
    /// Text.
    Text(String),
    /// A whole number below 2^64.
    Whole(u64),
    /// An array.
    Array,
    /// An object.
    Object,
    /// Null, a truth value, or another number.
    Other,
}

/// Passes over the value that comes next, which is seen as this.
fn passed<F: Format>(
    from: &mut Deserializer<'_, '_, F>,
    value: SeenValue,
) -> Result<SeenValue, F::Error> {
    from.skip()?;
    Ok(value)
}

/// The value that comes next.
fn seen_value<F: Format>(
    alloc: Global,
    from: &mut Deserializer<'_, '_, F>,
) -> Result<SeenValue, F::Error> {
    match from.peek()? {
        Kind::Str => Ok(SeenValue::Text(from.string(alloc)?)),
        Kind::Unsigned => Ok(SeenValue::Whole(from.u64()?)),
        Kind::Seq => passed(from, SeenValue::Array),
        Kind::Map => passed(from, SeenValue::Object),
        Kind::Unit | Kind::Bool | Kind::Signed | Kind::Float | Kind::Bytes => {
            passed(from, SeenValue::Other)
        }
    }
}

/// The members of an object.
#[derive(Drop)]
pub(crate) struct KnownMembers {
    /// The names that are known.
    names: Names,
    /// What is at each of them.
    values: [Option<SeenValue>; 7],
    /// The least of all other names.
    other: Option<String>,
}

impl KnownMembers {
    /// The members of the object that comes next.
    fn read<F: Format>(
        alloc: Global,
        names: Names,
        from: &mut Deserializer<'_, '_, F>,
    ) -> Result<KnownMembers, F::Error> {
        let mut members = KnownMembers {
            names,
            values: [None, None, None, None, None, None, None],
            other: None,
        };
        from.begin_map()?;
        for _ in 0..u64::MAX {
            if !from.next_entry()? {
                break;
            }
            let name = from.string(alloc)?;
            let value = seen_value(alloc, from)?;
            members.put(name, value);
        }
        Ok(members)
    }

    /// The place of a name among those that are known.
    fn place_of(&self, name: &str) -> Option<usize> {
        self.names.iter().position(|known| *known == name)
    }

    /// Whether a name is less than all other names so far.
    fn is_least(&self, name: &str) -> bool {
        match &self.other {
            Some(least) => name < least.as_str(),
            None => true,
        }
    }

    /// Takes a member. Of two members of one name the last counts.
    fn put(&mut self, name: String, value: SeenValue) {
        match self.place_of(&name) {
            Some(place) => {
                if let Some(known) = self.values.get_mut(place) {
                    *known = Some(value);
                }
            }
            None => {
                if self.is_least(&name) {
                    self.other = Some(name);
                }
            }
        }
    }

    /// What is at a name that is known.
    pub(crate) fn get(&self, name: &str) -> Option<&SeenValue> {
        self.values.get(self.place_of(name)?)?.as_ref()
    }

    /// The text at a name that is known.
    pub(crate) fn text(&self, name: &str) -> Option<&str> {
        match self.get(name) {
            Some(SeenValue::Text(text)) => Some(text.as_str()),
            Some(SeenValue::Whole(_) | SeenValue::Array | SeenValue::Object | SeenValue::Other)
            | None => None,
        }
    }

    /// The first of the known names that is none of these and has a value.
    fn known_beside(&self, names: &[&str]) -> Option<&str> {
        for name in self.names {
            if self.get(name).is_some() && !names.contains(&name) {
                return Some(name);
            }
        }
        None
    }

    /// The least name of a member that is none of these, if the known names are in order.
    pub(crate) fn least_beside(&self, names: &[&str]) -> Option<&str> {
        let Some(known) = self.known_beside(names) else {
            return self.other.as_deref();
        };
        if self.is_least(known) {
            return Some(known);
        }
        self.other.as_deref()
    }
}

/// The members of a job.
#[derive(Drop)]
struct RefusedJob(KnownMembers);

impl<'de> Deserialize<'de> for RefusedJob {
    fn deserialize<F: Format>(
        alloc: Global,
        from: &mut Deserializer<'de, '_, F>,
    ) -> Result<RefusedJob, F::Error> {
        Ok(RefusedJob(KnownMembers::read(alloc, JOB_MEMBERS, from)?))
    }
}

/// The members of the settings of a job, if these are an object.
#[derive(Drop)]
struct RefusedSettings(Option<KnownMembers>);

impl<'de> Deserialize<'de> for RefusedSettings {
    fn deserialize<F: Format>(
        alloc: Global,
        from: &mut Deserializer<'de, '_, F>,
    ) -> Result<RefusedSettings, F::Error> {
        let mut found = None;
        from.begin_map()?;
        for _ in 0..u64::MAX {
            match from.next_key(&[Name::exact("settings")])? {
                Some(0) => found = members_if_any(alloc, from)?,
                Some(_) => from.skip()?,
                None => break,
            }
        }
        Ok(RefusedSettings(found))
    }
}

/// The members of settings, if the value that comes next is an object.
fn members_if_any<F: Format>(
    alloc: Global,
    from: &mut Deserializer<'_, '_, F>,
) -> Result<Option<KnownMembers>, F::Error> {
    if from.peek()? == Kind::Map {
        return Ok(Some(KnownMembers::read(alloc, SETTINGS_MEMBERS, from)?));
    }
    from.skip()?;
    Ok(None)
}

/// What is read of a text; none if it has another form.
fn read<'de, T: Deserialize<'de>>(alloc: Global, text: &'de [u8]) -> Result<Option<T>, AllocError> {
    match serde_json::from_slice(alloc, text) {
        Ok(found) => Ok(Some(found)),
        Err(error) if error.is_memory() => Err(AllocError),
        Err(_) => Ok(None),
    }
}

/// The members of a job; none if the text is no object.
pub(crate) fn job_members(alloc: Global, text: &[u8]) -> Result<Option<KnownMembers>, AllocError> {
    match read::<RefusedJob>(alloc, text)? {
        Some(RefusedJob(members)) => Ok(Some(members)),
        None => Ok(None),
    }
}

/// The members of the settings of a job; none if it has none that are an object.
pub(crate) fn settings_members(
    alloc: Global,
    text: &[u8],
) -> Result<Option<KnownMembers>, AllocError> {
    match read::<RefusedSettings>(alloc, text)? {
        Some(RefusedSettings(members)) => Ok(members),
        None => Ok(None),
    }
}
