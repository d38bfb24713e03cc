use std::fs;
use std::fs::Metadata;
use std::os::unix::fs::MetadataExt;

/// A file that a maker made: its path, and which file it is.
#[derive(Drop)]
pub struct MadeFile {
    path: String,
    device: u64,
    inode: u64,
}

impl MadeFile {
    pub fn new(path: String, made: &Metadata) -> MadeFile {
        MadeFile {
            path,
            device: made.dev(),
            inode: made.ino(),
        }
    }

    /// Removes it, unless another file has its name by now.
    pub fn remove(&self, rt: &HostRuntime) {
        let Ok(now) = fs::symlink_metadata(rt, self.path.as_str()) else {
            return;
        };
        if now.dev() == self.device && now.ino() == self.inode {
            let _ = fs::remove_file(rt, self.path.as_str());
        }
    }
}
