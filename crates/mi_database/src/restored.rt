//! A database that is restored from tables: a container for each table of its catalog, and no open session.
//! It touches the containers that it makes, and knows them by their calls alone.
ghost use Rattle.std.specs.Prelude.{◌≡◌, ◌<◌, ◌++◌, ◌∷◌, [], ℕ, List, length, map, vec_len, IfOk, IfErr, OnOk};
ghost use Rattle.mi_catalog.specs.Shape.{schema_at};
ghost use Rattle.mi_container.specs.declared.restore.TableImage.{TableImage as Image};
ghost use Rattle.mi_container.specs.Restore.{image_table, IsRestoreFault};
ghost use Rattle.mi_database.specs.Restored.{AreRestored, IsDatabaseFault};

use crate::linked::{Linked, most_keyed_indexes};
use mi_catalog::Catalog;
use mi_container::{Container, OldPlaces, RestoreFault, TableImage};
use mi_journal::Inverses;
use mi_value::limits::LAST_COUNT;
use std::alloc::Global;

/// Why no database is restored from tables.
#[derive(Clone, Copy, Debug, PartialEq, Eq)]
pub enum DatabaseFault {
    /// There isn't one table for each of the catalog.
    Tables,
    /// The revision is beyond 2^63 - 1.
    Revision,
    /// What is wrong with the table of that number; or memory was refused there.
    Table { table: usize, fault: RestoreFault },
}

/// Adds the container of the next table of a catalog, which an image is. On an error no container is added.
fn add_container<C: Container>(
    alloc: Global,
    catalog: &Catalog,
    secret: u64,
    image: TableImage,
    made: &mut Vec<C>,
) -> Result<(), RestoreFault>
    requires { vec_len made.old < length catalog.now.tables }
    ensures added { (images : List Image) → AreRestored catalog.now secret images (map C.shape made.old.items) (map C.plain made.old.items) (map C.secrets made.old.items)
        → OnOk result (AreRestored catalog.now secret (images ++ image ∷ []) (map C.shape made.new.items) (map C.plain made.new.items) (map C.secrets made.new.items)) }
    ensures fault { IfErr result (λ e. IsRestoreFault (schema_at catalog.now (vec_len made.old)) (image_table image) e) }
{
    made.reserve(1)?;
    let schema = catalog.table(made.len()).copy(alloc)?;
    let container: C = C::restored(alloc, schema, secret, image)?;
    container.keeps_rules();
    made.push_reserved(container);
    Ok(())
}

/// The containers of all tables of a catalog, which images are, all with one secret.
fn restored_containers<C: Container>(
    alloc: Global,
    catalog: &Catalog,
    secret: u64,
    images: Vec<TableImage>,
) -> Result<Vec<C>, DatabaseFault>
    requires { length images.items ≡ length catalog.now.tables }
    ensures restored { IfOk result (λ made. AreRestored catalog.now secret images.items (map C.shape made.items) (map C.plain made.items) (map C.secrets made.items)) }
    ensures fault { IfErr result (λ e. (r : ℕ) → IsDatabaseFault catalog.now images.items r e) }
{
    let mut made = Vec::new(alloc);
    let mut left = images;
    left.reverse();
    'tables: while let Some(image) = left.pop() {
        let table = made.len();
        if let Err(fault) = add_container(alloc, catalog, secret, image, &mut made) {
            return Err(DatabaseFault::Table { table, fault });
        }
    }
    Ok(made)
}

impl<C: Container> Linked<C> {
    ghost use Rattle.mi_container.specs.Secrets.{opened_secrets};
    ghost use Rattle.mi_database.specs.LinkedData.{meaning};
    ghost use Rattle.mi_database.specs.Restored.{restored_database, AllRowsFit, IsDatabaseFault};

    /// The database of a catalog with these tables, of which there is one for each of the catalog, in its order. No session is open,
    /// no node is kept, and the revision is that one. Each hashed index hashes keys under the secret, as in [`Linked::new`].
    ///
    /// A fault says what is wrong, the first one of: the count of tables, the revision, a table. Then nothing is left.
    pub fn restored(
        alloc: Global,
        catalog: Catalog,
        secret: u64,
        images: Vec<TableImage>,
        revision: u64,
    ) -> Result<Linked<C>, DatabaseFault>
        ensures state { IfOk result (λ d. meaning d ≡ restored_database catalog images.items revision) }
        ensures fit { IfOk result (λ d. AllRowsFit (meaning d)) }
        ensures secrets { IfOk result (λ d. d.secrets ≡ map (opened_secrets secret) catalog.tables) }
        ensures fault { IfErr result (λ e. IsDatabaseFault catalog images.items revision e) }
    {
        if images.len() != catalog.table_count() {
            return Err(DatabaseFault::Tables);
        }
        if revision > LAST_COUNT {
            return Err(DatabaseFault::Revision);
        }
        let containers = match restored_containers(alloc, &catalog, secret, images) {
            Ok(containers) => containers,
            Err(fault) => return Err(fault),
        };
        let most = most_keyed_indexes(&catalog);
        Ok(Linked {
            catalog,
            containers,
            journal: Inverses::new(alloc, most),
            revision,
            laid: OldPlaces::new(),
        })
    }
}
