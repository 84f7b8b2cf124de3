//! The names of a file, of its journal, and of the new files that are to replace them.

ghost use Rattle.std.specs.Prelude.{◌≡◌, true, IfOk, IfErr, string_bytes};
ghost use Rattle.tf_files.specs.Opening.{is_file_fault};
ghost use Rattle.tf_files.specs.Inner.Paths.{text_folder, journal_folder};

use crate::cause::{NO_SUCH_FILE, Reason, Subject, Trouble};
use crate::folder::{Folder, SystemFiles};
use crate::look::{Look, look_for};
use crate::trust::{Access, caller};
use std::alloc::{AllocError, Global};
use std::fs::{self, Metadata};
use std::io::{self, ErrorKind};
use tf_session::RunFault;

/// The suffix that the name of a journal adds to that of its file.
const JOURNAL: &str = ".tfundo";

/// The suffix that the name of a new text adds to that of the file that it is to replace.
const NEW_TEXT: &str = ".tfnew";

/// The suffix that the name of a new journal adds to that of the journal that it is to replace.
const NEW_JOURNAL: &str = ".new";

/// The most links that are followed, each to the next: as many as Linux follows.
const MOST_LINKS: u32 = 40;

/// A name in an open folder.
#[derive(Drop)]
struct Place {
    folder: Folder,
    name: String,
}

/// Where a file and its journal are.
#[derive(Drop)]
struct Places {
    /// The file by the name that was given.
    given: Place,
    /// What that leads to, if it is a link to a name.
    text: Option<Place>,
    /// What the journal leads to, if it is a link.
    journal: Option<Place>,
    /// Whether the file is a link to what has no name, as `/dev/stdin` may be.
    is_text_link: bool,
    found_text: Look,
    found_journal: Look,
}

/// What a name leads to.
#[derive(Drop)]
struct Target {
    /// None if the name is no link, or a link to what has no name.
    place: Option<Place>,
    /// What is there.
    found: Look,
}

/// The paths of a file, of its journal, and of the new files that are to replace them. If a file is
/// a link, the new file is next to what the link leads to, so that the link stays. Each path begins
/// at the handle of an open folder.
#[derive(Drop)]
pub struct FilePaths {
    /// The name of the file as it was given.
    pub name: String,
    places: Places,
    pub text: String,
    pub new_text: String,
    pub journal: String,
    pub new_journal: String,
    /// The new text that was there when the folders were opened.
    pub found_new_text: Option<Metadata>,
    /// The new journal that was there then.
    pub found_new_journal: Option<Metadata>,
}

/// The four paths.
#[derive(Drop)]
struct FourPaths {
    text: String,
    new_text: String,
    journal: String,
    new_journal: String,
}

impl FilePaths {
    /// Opens the folders of a file with this name, looks at what is there, and returns the paths.
    ///
    /// # Errors
    ///
    /// `Memory`; `Read` if a folder can't be opened, the journal is a link that may not be followed,
    /// or the system does not say whether there are new files.
    pub fn of<R: SystemFiles>(rt: &R, alloc: Global, name: &str) -> Result<FilePaths, Trouble>
        ensures name { IfOk result (λ paths. string_bytes paths.name ≡ name.now) }
        ensures fault { IfErr result (λ trouble. is_file_fault trouble.fault ≡ true) }
    {
        if name.is_empty() {
            let reason = Reason::System(NO_SUCH_FILE);
            return Err(Trouble::unread(Subject::File, reason));
        }
        let given = Place::open(rt, alloc, "", name)?;
        let places = Places::of(rt, alloc, given)?;
        let paths = places.paths(alloc)?;
        let found_new_text = look_for(rt, &paths.new_text)?;
        let found_new_journal = look_for(rt, &paths.new_journal)?;
        let name = String::from_str(alloc, name)?;
        Ok(FilePaths {
            name,
            places,
            text: paths.text,
            new_text: paths.new_text,
            journal: paths.journal,
            new_journal: paths.new_journal,
            found_new_text,
            found_new_journal,
        })
    }

    /// Returns the folder of the text.
    pub fn text_folder(&self) -> &Folder
        ensures { result.now ≡ text_folder self.now }
    {
        match &self.places.text {
            Some(text) => &text.folder,
            None => &self.places.given.folder,
        }
    }

    /// Returns the folder of the journal.
    pub fn journal_folder(&self) -> &Folder
        ensures { result.now ≡ journal_folder self.now }
    {
        match &self.places.journal {
            Some(journal) => &journal.folder,
            None => &self.places.given.folder,
        }
    }

    /// Returns what had the path of the text when its folder was opened.
    pub fn found_text(&self) -> &Look
        ensures { result.now ≡ self.now.places.found_text }
    {
        &self.places.found_text
    }

    /// Returns what had the path of the journal when its folder was opened.
    pub fn found_journal(&self) -> &Look
        ensures { result.now ≡ self.now.places.found_journal }
    {
        &self.places.found_journal
    }

    /// Returns who may create files beside the text; none if the journal is in another folder, or the
    /// system does not say.
    pub fn shared_access(&self) -> Option<Access> {
        let folder = self.text_folder();
        let is_shared = match (&self.places.text, &self.places.journal) {
            (None, None) => true,
            _ => folder.id() == self.journal_folder().id(),
        };
        if is_shared { folder.access() } else { None }
    }

    /// Returns what is found under the path of the text. A link is followed only if what it leads to
    /// has no name of its own, as for `/dev/stdin`: one that other programs put in the place of a
    /// file is not.
    ///
    /// # Errors
    ///
    /// Those of the system's calls.
    pub fn look_at_text<R: SystemFiles>(&self, rt: &R) -> io::Result<Metadata> {
        if self.places.is_text_link {
            fs::metadata(rt, &self.text)
        } else {
            fs::symlink_metadata(rt, &self.text)
        }
    }
}

impl Places {
    /// Returns where the file and its journal are, of which the file has this name.
    fn of<R: SystemFiles>(rt: &R, alloc: Global, given: Place) -> Result<Places, Trouble>
        ensures { IfErr result (λ trouble. is_file_fault trouble.fault ≡ true) }
    {
        let found = given.look(rt, alloc, "")?;
        let is_link = found.is_link();
        let text = if is_link {
            given.end_of_links(rt, alloc)?
        } else {
            Target { place: None, found }
        };
        let journal = given.journal_target(rt, alloc)?;
        let is_text_link = is_link && text.place.is_none();
        Ok(Places {
            given,
            text: text.place,
            journal: journal.place,
            is_text_link,
            found_text: text.found,
            found_journal: journal.found,
        })
    }

    /// Returns the paths of the files at these places.
    fn paths(&self, alloc: Global) -> Result<FourPaths, AllocError> {
        let of_text = self.text.as_ref().unwrap_or(&self.given);
        let text = of_text.path(alloc, "", "")?;
        let new_text = of_text.path(alloc, NEW_TEXT, "")?;
        let (of_journal, suffix) = match &self.journal {
            Some(journal) => (journal, ""),
            None => (&self.given, JOURNAL),
        };
        let journal = of_journal.path(alloc, suffix, "")?;
        let new_journal = of_journal.path(alloc, suffix, NEW_JOURNAL)?;
        Ok(FourPaths {
            text,
            new_text,
            journal,
            new_journal,
        })
    }
}

impl Target {
    /// Returns the target of links that lead to nothing that has a name.
    fn nameless() -> Target {
        Target {
            place: None,
            found: Look::Unknown,
        }
    }

    /// Returns the target of links that lead to this place, where this was found.
    fn named(place: Place, found: Metadata) -> Target {
        Target {
            place: Some(place),
            found: Look::Found(found),
        }
    }
}

impl Place {
    /// Opens the folder of a name. One that does not begin with a slash is joined to `base`, which
    /// is empty or ends in a slash.
    fn open<R: SystemFiles>(rt: &R, alloc: Global, base: &str, name: &str) -> Result<Place, Trouble>
        ensures { IfErr result (λ trouble. is_file_fault trouble.fault ≡ true) }
    {
        let base = if name.starts_with('/') { "" } else { base };
        let (folder, last) = match name.rsplit_once('/') {
            Some((folder, last)) => (format!(in alloc; "{base}{folder}/")?, last),
            None => (String::from_str(alloc, base)?, name),
        };
        let name = String::from_str(alloc, last)?;
        let folder = Folder::open(rt, alloc, folder)?;
        Ok(Place { folder, name })
    }

    /// Returns the path of this name, with the suffixes.
    fn path(&self, alloc: Global, suffix: &str, second: &str) -> Result<String, AllocError> {
        let prefix = self.folder.prefix();
        let name = self.name.as_str();
        format!(in alloc; "{prefix}{name}{suffix}{second}")
    }

    /// Returns what has this name with the suffix.
    fn look<R: SystemFiles>(
        &self,
        rt: &R,
        alloc: Global,
        suffix: &str,
    ) -> Result<Look, AllocError> {
        let path = self.path(alloc, suffix, "")?;
        Ok(Look::at(rt, &path))
    }

    /// Returns what the link of this name leads to: of links that lead one to the next, what the
    /// last one leads to. None where it leads to nothing that has a name.
    fn end_of_links<R: SystemFiles>(&self, rt: &R, alloc: Global) -> Result<Target, Trouble>
        ensures { IfErr result (λ trouble. is_file_fault trouble.fault ≡ true) }
    {
        let Some(mut place) = self.follow(rt, alloc, "")? else {
            return Ok(Target::nameless());
        };
        for _ in 0..MOST_LINKS {
            match place.look(rt, alloc, "")? {
                Look::Found(found) if !found.is_symlink() => {
                    return Ok(Target::named(place, found));
                }
                Look::Found(_) => {}
                _ => return Ok(Target::nameless()),
            }
            match place.follow(rt, alloc, "")? {
                Some(next) => place = next,
                None => return Ok(Target::nameless()),
            }
        }
        Ok(Target::nameless())
    }

    /// Returns what the link of this name with the suffix leads to; none if the system doesn't say
    /// it in UTF-8.
    fn follow<R: SystemFiles>(
        &self,
        rt: &R,
        alloc: Global,
        suffix: &str,
    ) -> Result<Option<Place>, Trouble>
        ensures { IfErr result (λ trouble. is_file_fault trouble.fault ≡ true) }
    {
        let path = self.path(alloc, suffix, "")?;
        match rt.read_link(alloc, path.as_str()) {
            Ok(link) => match Place::open(rt, alloc, self.folder.prefix(), link.as_str()) {
                Ok(place) => Ok(Some(place)),
                Err(trouble) => Err(trouble.of_link()),
            },
            Err(error) if error.kind() == ErrorKind::OutOfMemory => {
                Err(Trouble::from(RunFault::Memory))
            }
            Err(_) => Ok(None),
        }
    }

    /// Returns what the name of the journal of the file of this name leads to.
    ///
    /// # Errors
    ///
    /// `Memory`; `Read` if it is a link that may not be followed.
    fn journal_target<R: SystemFiles>(&self, rt: &R, alloc: Global) -> Result<Target, Trouble>
        ensures { IfErr result (λ trouble. is_file_fault trouble.fault ≡ true) }
    {
        let link = match self.look(rt, alloc, JOURNAL)? {
            Look::Found(found) if found.is_symlink() => found,
            found => return Ok(Target { place: None, found }),
        };
        match self.follow(rt, alloc, JOURNAL) {
            Ok(Some(target)) => target.as_journal(rt, alloc, &link),
            Ok(None) => Err(Trouble::unread(Subject::Journal, Reason::Link)),
            Err(trouble) => Err(trouble.of_subject(Subject::Journal)),
        }
    }

    /// Returns this place, to which the link of a journal leads.
    ///
    /// # Errors
    ///
    /// `Memory`; `Read` if the link may not be followed.
    fn as_journal<R: SystemFiles>(
        self,
        rt: &R,
        alloc: Global,
        link: &Metadata,
    ) -> Result<Target, Trouble>
        ensures { IfErr result (λ trouble. is_file_fault trouble.fault ≡ true) }
    {
        match self.look(rt, alloc, "")? {
            Look::Found(found) if self.may_be_journal(rt, link, &found) => {
                Ok(Target::named(self, found))
            }
            _ => Err(Trouble::unread(Subject::Journal, Reason::Link)),
        }
    }

    /// Returns whether a link may make the file of this name a journal: it has the name of one, and
    /// the link belongs to the caller, or to the owner of the file.
    fn may_be_journal<R: SystemFiles>(&self, rt: &R, link: &Metadata, file: &Metadata) -> bool {
        let link = Access::of(link);
        self.name.as_str().ends_with(JOURNAL)
            && (link.is_of(caller(rt)) || link.has_owner_of(&Access::of(file)))
    }
}
