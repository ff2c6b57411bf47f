//! The files that a configuration includes, as they were read.
use ldm_outside::{Failed, FileNo, FileRead, Put, Store};
use ldm_text::LONGEST_CONFIGURATION;
use std::alloc::{AllocError, Global};
use std::marker::{Brand, Model, PhantomData};

/// A file that was included: its number, its path and its text.
#[derive(Drop)]
pub(crate) struct IncludedFile {
    number: u32,
    path: String,
    text: Vec<u8>,
}

impl IncludedFile {
    pub(crate) fn path(&self) -> &str {
        self.path.as_str()
    }

    /// Its text, or nothing, where there was no room for it.
    pub(crate) fn text(&self) -> &[u8] {
        self.text.as_slice()
    }
}

/// The files that an ldmd.conf includes, with their numbers: the first that was read has the number 1. One for which
/// there was no memory is missing.
#[derive(Drop)]
pub(crate) struct IncludedFiles {
    files: Vec<IncludedFile>,
    // The number of the file that was read last.
    last: u32,
    // How many bytes of texts may still be kept.
    room: usize,
}

impl IncludedFiles {
    pub(crate) fn new(alloc: Global) -> IncludedFiles {
        IncludedFiles {
            files: Vec::new(alloc),
            last: 0,
            room: LONGEST_CONFIGURATION,
        }
    }

    /// The file of that number.
    pub(crate) fn find(&self, number: u32) -> Option<&IncludedFile> {
        for file in &self.files {
            if file.number == number {
                return Some(file);
            }
        }
        None
    }

    // Counts a file that was read, and keeps it if there is memory.
    fn note(&mut self, alloc: Global, path: &str, text: &[u8]) {
        self.last = self.last.saturating_add(1);
        // a file that is missing here is told by its number
        let _ = self.keep(alloc, path, text);
    }

    fn keep(&mut self, alloc: Global, path: &str, text: &[u8]) -> Result<(), AllocError> {
        let mut file = IncludedFile {
            number: self.last,
            path: String::from_str(alloc, path)?,
            text: Vec::new(alloc),
        };
        if text.len() <= self.room {
            file.text.extend_from_slice(text)?;
            self.room -= text.len();
        }
        self.files.push(file)?;
        Ok(())
    }
}

/// Which reference to a store is lent, which contracts alone know: it stands for the type of what holds the reference,
/// so that it is known whatever that was lent to.
pub(crate) trait Lender {
    ghost use Rattle.std.specs.Prelude.{ℕ};

    ghost name: { ℕ };
}

impl Lender for Brand {
    ghost name = { 0 };
}

/// A store that is lent.
#[derive(Drop)]
pub(crate) struct Lent<'a, F> {
    pub store: &'a mut F,
}

/// A store that notes each file that is read of the one behind it.
#[derive(Drop)]
pub(crate) struct Noting<'a, 'n, F, B: Lender> {
    store: &'a mut F,
    included: &'n mut IncludedFiles,
    of: PhantomData<B>,
}

impl<'a, 'n, F, B: Lender> Model for Noting<'a, 'n, F, B> {
    ghost use Rattle.std.specs.Prelude.{◌≡◌};

    ghost Value = { F };

    ghost view = { λ noting. noting.store.now };

    ghost invariant = { λ noting. noting.store.ghost_name ≡ B.name };
}

impl<'a, 'n, F, B: Lender> Noting<'a, 'n, F, B> {
    ghost use Rattle.std.specs.Prelude.{◌≡◌};

    /// Notes what is read of the store that is lent.
    pub(crate) fn over(lent: Lent<'a, F>, included: &'n mut IncludedFiles) -> Noting<'a, 'n, F, B>
        requires { B.name ≡ lent.store.ghost_name }
        ensures { result ≡ lent.entry.store.now }
    {
        let Lent { store } = lent;
        Noting {
            store,
            included,
            of: PhantomData,
        }
    }

    /// The store behind it.
    pub(crate) fn into_lent(self) -> Lent<'a, F>
        ensures name { result.store.ghost_name ≡ B.name }
        ensures store { result.store.now ≡ self.entry }
    {
        let Noting { store, .. } = self;
        Lent { store }
    }
}

impl<'a, 'n, F: Store, B: Lender> Store for Noting<'a, 'n, F, B> {
    ghost tells = { F.tells };

    fn read_file(&mut self, alloc: Global, path: &str, limit: u64) -> FileRead {
        let read = self.store.read_file(alloc, path, limit);
        if let FileRead::Bytes(bytes) = &read {
            self.included.note(alloc, path, bytes.as_slice());
        }
        read
    }

    fn append_to(&mut self, path: &str) -> Result<FileNo, Failed> {
        self.store.append_to(path)
    }

    fn empty(&mut self, file: FileNo) -> Result<(), Failed> {
        self.store.empty(file)
    }

    fn write(&mut self, file: FileNo, piece: &[u8]) -> Put {
        self.store.write(file, piece)
    }

    fn flush(&mut self, file: FileNo) -> Result<(), Failed> {
        self.store.flush(file)
    }

    fn shut(&mut self, file: FileNo) -> Result<(), Failed> {
        self.store.shut(file)
    }
}
