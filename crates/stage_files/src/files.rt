//! Files in memory, by their names.

ghost use Rattle.std.specs.Prelude.{◌≡◌, ◌<◌, ◌+◌, ◌++◌, ◌∷◌, [], All, IsSome, Some, IfOk};
ghost use Rattle.arrayvec.specs.ArrayVec.{array_vec_len};

use crate::said::{No, Said};
use crate::store::{FileStore, Watched};
use crate::watch::{Watch, say};
use arrayvec::ArrayVec;
use ckd_image::{FailingStore, Image, MOST_FILES, MemoryStore};
use std::alloc::{AllocError, Global};
use std::fmt::Display;
use std::fs;
use std::rc::Rc;

/// The stores of an image's files, in their order.
pub type Stores = ArrayVec<Option<FileStore>, 8>;

/// What is said of a file that is not there.
pub const NO_FILE: &str = "no such file";

/// A file, and which call of the next stores over it fails.
#[derive(Drop)]
pub struct File {
    name: String,
    /// What it holds.
    pub content: MemoryStore,
    /// The number of the call, counted from 1 on; with 0 none fails.
    pub fails_at: u32,
    /// Whether each later one fails too.
    pub for_good: bool,
    // what the last store over it was asked for
    watch: Rc<Watch>,
}

impl File {
    /// Says what the last store over it was asked for.
    pub fn say_calls(&self, said: &mut Said) {
        say(&self.watch, said);
    }

    // A store over what it holds.
    fn store(&mut self, alloc: Global) -> Result<FileStore, AllocError> {
        let watch = Rc::new(alloc, Watch::new())?;
        let name = self.name.as_str().to_string(alloc)?;
        let content = MemoryStore::new(alloc, self.content.bytes())?;
        let Ok(other) = watch.clone() else {
            return Err(AllocError);
        };
        self.watch = other;
        Ok(Watched {
            store: failing(content, self.fails_at, self.for_good),
            name,
            watch,
        })
    }
}

fn failing(content: MemoryStore, at: u32, for_good: bool) -> FailingStore {
    FailingStore::new(content, u64::from(at), for_good)
}

/// Files by their names. A name with a slash in it is the path of a file on the disk.
#[derive(Drop)]
pub struct Files {
    list: Vec<File>,
}

impl Files {
    /// No files.
    pub fn new(alloc: Global) -> Files {
        Files {
            list: Vec::new(alloc),
        }
    }

    /// The file of a name.
    pub fn file(&mut self, name: &str) -> Option<&mut File> {
        for file in self.list.as_mut_slice() {
            if file.name.as_str() == name {
                return Some(file);
            }
        }
        None
    }

    /// A file with this name, in the place of one that has it; none of its calls fails.
    ///
    /// # Errors
    ///
    /// Memory runs out.
    pub fn set(
        &mut self,
        alloc: Global,
        name: &str,
        content: MemoryStore,
    ) -> Result<(), AllocError> {
        if let Some(file) = self.file(name) {
            file.content = content;
            return Ok(());
        }
        let file = File {
            name: name.to_string(alloc)?,
            content,
            fails_at: 0,
            for_good: false,
            watch: Rc::new(alloc, Watch::new())?,
        };
        self.list.push(file)?;
        Ok(())
    }

    // Reads a file on the disk.
    fn fetch(&mut self, rt: &HostRuntime, name: &str) -> Result<(), No> {
        let Ok(content) = fs::read(rt, name) else {
            return Err(No("the file is not read"));
        };
        let content = MemoryStore::new(rt.alloc(), content.as_slice())?;
        Ok(self.set(rt.alloc(), name, content)?)
    }

    /// A store over what a file holds.
    ///
    /// # Errors
    ///
    /// There is no such file, or memory runs out.
    pub fn store(&mut self, rt: &HostRuntime, name: &str) -> Result<FileStore, No> {
        if name.contains('/') {
            self.fetch(rt, name)?;
        }
        match self.file(name) {
            Some(file) => Ok(file.store(rt.alloc())?),
            None => Err(No(NO_FILE)),
        }
    }

    // Stores over what these files hold.
    fn stores(&mut self, rt: &HostRuntime, names: &[&str]) -> Result<Stores, No>
        ensures there { IfOk result (λ stores. All IsSome stores.items) }
    {
        let mut stores = ArrayVec::new();
        for name in names {
            if stores.len() >= MOST_FILES {
                return Err(No("more than eight files"));
            }
            stores = with_store(stores, self.store(rt, name)?);
        }
        Ok(stores)
    }

    /// An image over these files; none where that is said to be refused.
    pub fn mount(
        &mut self,
        rt: &HostRuntime,
        names: &[&str],
        said: &mut Said,
    ) -> Option<Image<FileStore>> {
        match self.stores(rt, names) {
            Ok(stores) => self.mount_stores(rt, stores, said),
            Err(No(why)) => {
                said.no(why);
                None
            }
        }
    }

    fn mount_stores(
        &mut self,
        rt: &HostRuntime,
        stores: Stores,
        said: &mut Said,
    ) -> Option<Image<FileStore>>
        requires { All IsSome stores.items }
    {
        match Image::mount_files(stores) {
            Ok(image) => Some(image),
            Err((fault, stores)) => {
                said.refused(&fault);
                self.keep(rt, stores, said);
                None
            }
        }
    }

    /// Takes an image apart, and says that it was refused, and why.
    pub fn refuse<F: Display>(
        &mut self,
        rt: &HostRuntime,
        image: Image<FileStore>,
        fault: &F,
        said: &mut Said,
    ) {
        said.refused(fault);
        self.keep(rt, image.into_stores(), said);
    }

    /// Takes an image apart, and says that this is done.
    pub fn release(&mut self, rt: &HostRuntime, image: Image<FileStore>, said: &mut Said) {
        said.ok();
        self.keep(rt, image.into_stores(), said);
    }

    /// What stores hold goes back to their files; says where that is not done.
    pub fn keep(&mut self, rt: &HostRuntime, stores: Stores, said: &mut Said) {
        for store in stores {
            if let Some(store) = store {
                self.keep_one(rt, store, said);
            }
        }
    }

    /// The same of one store.
    pub fn keep_one(&mut self, rt: &HostRuntime, store: FileStore, said: &mut Said) {
        let Watched {
            store,
            name,
            watch: _,
        } = store;
        if let Err(No(why)) = self.put_back(rt, name.as_str(), store.into_inner()) {
            said.no(why);
        }
    }

    fn put_back(&mut self, rt: &HostRuntime, name: &str, content: MemoryStore) -> Result<(), No> {
        if name.contains('/') && fs::write(rt, name, content.bytes()).is_err() {
            return Err(No("the file is not written"));
        }
        Ok(self.set(rt.alloc(), name, content)?)
    }
}

// The list with one more store.
fn with_store(mut stores: Stores, store: FileStore) -> Stores
    requires room { array_vec_len stores < 8 }
    requires there { All IsSome stores.items }
    ensures there { All IsSome result.items }
{
    stores.push(Some(store));
    stores
}
