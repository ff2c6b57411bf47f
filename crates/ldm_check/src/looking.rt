//! The files that are looked at.
ghost use Rattle.std.specs.Prelude.{◌≤◌, OnOk};
ghost use Rattle.ldm_check.specs.Files.{TellsFile, TellsFiles};
ghost use Rattle.ldm_check.specs.Runs.{texts_of};
ghost use Rattle.ldm_check.specs.Walks.{scene_of, tells_by};

use crate::conf_file::Search;
use crate::lines::{put_file, put_unread};
use ldm_command_files::words_of_conf;
use ldm_conf::ConfKind;
use ldm_outside::{FileRead, Reasons, Store};
use ldm_text::LONGEST_CONFIGURATION;
use ldm_types::OutOfMemory;
use std::alloc::Global;

/// What a file is to be.
#[derive(Clone, Copy)]
pub(crate) enum Form {
    /// An ldmd.conf.
    Conf,
    /// A pqact.conf.
    Pqact,
}

impl Search {
    /// Tells what is wrong with each of these files. Of an ldmd.conf that is also what is wrong with the files that it
    /// includes.
    pub(crate) fn look_at_files<F: Store + Reasons>(
        &mut self,
        alloc: Global,
        store: &mut F,
        paths: &[&str],
        form: Form,
    ) -> Result<(), OutOfMemory>
        ensures told { OnOk result (TellsFiles (tells_by form) (texts_of paths.entry.now)
            (scene_of (F.tells store.old) self.old) (scene_of (F.tells store.new) self.new)) }
        ensures faults_kept { (F.tells store.old).faults ≤ (F.tells store.new).faults }
    {
        let mut left = paths;
        while let [path, others @ ..] = left {
            self.look_at_file(alloc, store, path, form)?;
            left = others;
        }
        Ok(())
    }

    // Tells what is wrong with the file under the path.
    fn look_at_file<F: Store + Reasons>(
        &mut self,
        alloc: Global,
        store: &mut F,
        path: &str,
        form: Form,
    ) -> Result<(), OutOfMemory>
        ensures told { OnOk result (TellsFile (tells_by form path.now) path.now
            (scene_of (F.tells store.old) self.old) (scene_of (F.tells store.new) self.new)) }
        ensures faults_kept { (F.tells store.old).faults ≤ (F.tells store.new).faults }
    {
        match store.read_file(alloc, path, LONGEST_CONFIGURATION as u64) {
            FileRead::Bytes(bytes) => match form {
                Form::Conf => self.look_at_text(alloc, store, path, bytes.as_slice()),
                Form::Pqact => self.look_at_entries(alloc, path, bytes.as_slice()),
            },
            FileRead::TooLong => {
                put_file(
                    &mut self.faults,
                    path.as_bytes(),
                    words_of_conf(ConfKind::Long),
                )?;
                Ok(())
            }
            FileRead::Failed => {
                put_unread(&mut self.faults, path.as_bytes(), store.reason())?;
                Ok(())
            }
            FileRead::OutOfMemory => Err(OutOfMemory),
        }
    }
}
