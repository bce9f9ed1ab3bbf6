//! The tables of a database as plain data, one image for each table.
//! It reads the containers, by their calls alone, and changes nothing.
ghost use Rattle.std.specs.Prelude.{◌≡◌, map, IfOk};
ghost use Rattle.mi_container.specs.Restore.{image_table};
ghost use Rattle.mi_database.specs.LinkedData.{meaning};

use crate::linked::Linked;
use mi_container::{Container, TableImage};
use std::alloc::{AllocError, Global};

impl<C: Container> Linked<C> {
    /// The tables as plain data, in the order of the catalog: of each its rows with copies of their records, the list of each index,
    /// and both counters. Nothing changes. Refusal: memory; then nothing is left.
    pub fn images(&self, alloc: Global) -> Result<Vec<TableImage>, AllocError>
        ensures { IfOk result (λ images. map image_table images.items ≡ (meaning self.now).tables) }
    {
        let mut images = Vec::new(alloc);
        for n in 0..self.containers.len() {
            images.push(self.containers[n].image(alloc)?)?;
        }
        Ok(images)
    }
}
