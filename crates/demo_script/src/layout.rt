//! The layout of a demo's store.

ghost use Rattle.std.specs.Prelude.{◌≡◌, ◌≤◌, None, IfOk};
ghost use Rattle.block_model.specs.declared.schema.Schema.{Schema};
ghost use Rattle.store_layout.specs.FirstBrokenRule.{first_broken_rule};
ghost use Rattle.command_line.specs.DeclaredSchema.{Denotes};
ghost use Rattle.demo_script.specs.DemoStore.{IsDemoLayout, demo_declarations};

use block_model::{NoMemory, Schema, Sizes, Words};
use command_line::{DeclFault, read_declarations};
use std::alloc::Global;
use store_layout::Layout;

/// The layout of a demo's store: as many blocks as its rows fill, and the demo's table and index. `Err` is want of memory.
pub fn demo_layout(alloc: Global, rows: u32) -> Result<Layout, NoMemory>
    requires some { 1 ≤ rows }
    requires few { rows ≤ 200000 }
    ensures made { IfOk result (IsDemoLayout rows) }
    // No other schema is declared.
    ensures alone { IfOk result (λ layout. (schema : Schema) → Denotes demo_declarations schema → schema ≡ layout.schema) }
{
    let schema = declared(alloc)?;
    let sizes = Sizes {
        heap_blocks: (rows + 15) / 16,
        index_blocks: 256,
        status_blocks: 1,
        log_pages: 128,
        frames: 256,
    };
    Ok(within_limits(schema, sizes))
}

/// The demo's table and index.
fn declared(alloc: Global) -> Result<Schema, NoMemory>
    ensures denoted { IfOk result (λ schema. Denotes demo_declarations schema) }
    ensures alone { IfOk result (λ schema. (other : Schema) → Denotes demo_declarations other → schema ≡ other) }
{
    let words = declarations(alloc)?;
    match read_declarations(alloc, &words) {
        Ok(schema) => Ok(schema),
        Err(DeclFault::Form { .. }) => unreachable!(),
        Err(DeclFault::Memory) => Err(NoMemory),
    }
}

/// Their declarations.
fn declarations(alloc: Global) -> Result<Words, NoMemory>
    ensures { IfOk result (λ words. words ≡ demo_declarations) }
{
    let mut words = Words::new(alloc);
    words.push(b"table d(k int8,v int8,r int8range,a inet) rows_per_page 16")?;
    words.push(
        b"index di on d(k minmax,v multi 16,r inclusion,a bloom 4096 3) pages_per_range 16",
    )?;
    Ok(words)
}

/// The layout of a schema and sizes that pass no limit.
fn within_limits(schema: Schema, sizes: Sizes) -> Layout
    requires { first_broken_rule schema sizes ≡ None }
    ensures { result ≡ record { schema = schema; sizes = sizes } }
{
    match Layout::new(schema, sizes) {
        Ok(layout) => layout,
        Err(_) => unreachable!(),
    }
}
