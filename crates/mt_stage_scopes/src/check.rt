ghost use Rattle.std.specs.Prelude.{◌≡◌, Option, Some, flat_map, slice_get, IfOk};
ghost use Rattle.std.specs.Option.{option_copied};
ghost use Rattle.mt_syntax.specs.First.{first_of};
ghost use Rattle.mt_syntax.specs.Fold.{on_expr};
ghost use Rattle.mt_stage_declared.specs.Declarations.{declared_in_file};
ghost use Rattle.mt_stage_scopes.specs.Bound.{at_top, in_dollar};
ghost use Rattle.mt_stage_scopes.specs.Misused.{broken_at_client_site, broken_at_site, broken_in_body, broken_in_dollar, broken_in_tilde, misused_names};
ghost use Rattle.mt_stage_scopes.specs.Sites.{sites, sites_of_stmts, sites_of_tilde};

use crate::around::Around;
use crate::globals::client_globals;
use crate::rules::broken_by_name;
use crate::site::Site;
use crate::sites::{block_scope, expr, stmts};
use mt_stage_declared::{Scope, declared_in_file};
use mt_syntax::{Broken, Expr, Program, Stmt, Tilde, earlier};
use mt_tree::{NoMemory, Row};
use std::alloc::Global;

// The tildes of a program, and the client globals that they declare.
#[derive(Clone, Copy)]
struct Client<'a> {
    alloc: Global,
    tildes: &'a [Tilde],
    globals: &'a Scope,
}

// Each call finds the first broken place in what it is given, where tildes may nest in one another so many levels deep.
impl Client<'_> {
    #[cycle(misused)]
    fn at_sites(&self, levels: usize, list: &[Site]) -> Result<Option<Broken>, NoMemory>
        ensures { IfOk result (λ found. found ≡ first_of (flat_map (broken_at_site self.now.globals.now (broken_in_tilde self.now.globals.now self.now.tildes.now levels)) list.now)) }
    {
        let mut found = None;
        for site in list {
            found = earlier(found, self.at_site(levels, site)?);
        }
        Ok(found)
    }

    #[cycle(misused)]
    fn at_site(&self, levels: usize, site: &Site) -> Result<Option<Broken>, NoMemory>
        ensures { IfOk result (λ found. found ≡ first_of (broken_at_site self.now.globals.now (broken_in_tilde self.now.globals.now self.now.tildes.now levels) site.now)) }
    {
        match site {
            Site::Name(name, around) => Ok(broken_by_name(self.globals, around, name)),
            Site::Tilde(id, around) => self.tilde(levels, *id, around),
            Site::Dollar(_at, _around) => Ok(None),
        }
    }

    // In a tilde, by its number.
    #[cycle(misused)]
    fn tilde(&self, levels: usize, id: u32, around: &Around) -> Result<Option<Broken>, NoMemory>
        ensures { IfOk result (λ found. found ≡ first_of (broken_in_tilde self.now.globals.now self.now.tildes.now levels id around.now)) }
    {
        if levels == 0 {
            return Ok(None);
        }
        self.body(levels - 1, item_at(self.tildes, id), around)
    }

    #[cycle(misused)]
    fn body(
        &self,
        levels: usize,
        tilde: Option<&Tilde>,
        around: &Around,
    ) -> Result<Option<Broken>, NoMemory>
        ensures { IfOk result (λ found. found ≡ first_of (broken_in_body self.now.globals.now (broken_in_tilde self.now.globals.now self.now.tildes.now levels) (option_copied tilde.entry) around.now)) }
    {
        match tilde {
            None => Ok(None),
            Some(tilde) => {
                let list = sites_of_tilde(self.alloc, &tilde.body, around)?;
                self.at_client_sites(levels, list.as_slice(), &tilde.dollars)
            }
        }
    }

    #[cycle(misused)]
    fn at_client_sites(
        &self,
        levels: usize,
        list: &[Site],
        dollars: &Row<Expr>,
    ) -> Result<Option<Broken>, NoMemory>
        ensures { IfOk result (λ found. found ≡ first_of (flat_map (broken_at_client_site self.now.globals.now (broken_in_tilde self.now.globals.now self.now.tildes.now levels) dollars.now) list.now)) }
    {
        let mut found = None;
        for site in list {
            found = earlier(found, self.at_client_site(levels, site, dollars)?);
        }
        Ok(found)
    }

    // Directly in a tilde with these dollars.
    #[cycle(misused)]
    fn at_client_site(
        &self,
        levels: usize,
        site: &Site,
        dollars: &Row<Expr>,
    ) -> Result<Option<Broken>, NoMemory>
        ensures { IfOk result (λ found. found ≡ first_of (broken_at_client_site self.now.globals.now (broken_in_tilde self.now.globals.now self.now.tildes.now levels) dollars.now site.now)) }
    {
        match site {
            Site::Dollar(at, around) => self.dollar(levels, item_at(dollars.items(), *at), around),
            Site::Name(_, _) | Site::Tilde(_, _) => self.at_site(levels, site),
        }
    }

    #[cycle(misused)]
    fn dollar(
        &self,
        levels: usize,
        from: Option<&Expr>,
        around: &Around,
    ) -> Result<Option<Broken>, NoMemory>
        ensures { IfOk result (λ found. found ≡ first_of (broken_in_dollar self.now.globals.now (broken_in_tilde self.now.globals.now self.now.tildes.now levels) (option_copied from.entry) around.now)) }
    {
        match from {
            None => Ok(None),
            Some(from) => {
                let list = sites_of_dollar(self.alloc, from, around)?;
                self.at_sites(levels, list.as_slice())
            }
        }
    }
}

fn item_at<T>(items: &[T], at: u32) -> Option<&T>
    ensures { option_copied result ≡ slice_get items.now at }
{
    items.get(at as usize)
}

fn sites_of_dollar(alloc: Global, from: &Expr, around: &Around) -> Result<Vec<Site>, NoMemory>
    ensures { IfOk result (λ list. list.items ≡ (on_expr sites from.now).found.sites (in_dollar around.now)) }
{
    let mut list = Vec::new(alloc);
    expr(alloc, from, &around.in_dollar()?, &mut list)?;
    Ok(list)
}

fn sites_of_stmts(alloc: Global, items: &Row<Stmt>, around: &Around) -> Result<Vec<Site>, NoMemory>
    ensures { IfOk result (λ list. list.items ≡ sites_of_stmts items.now around.now) }
{
    let mut list = Vec::new(alloc);
    stmts(alloc, items, around, &mut list)?;
    Ok(list)
}

fn sites_of_tilde(alloc: Global, body: &Row<Stmt>, around: &Around) -> Result<Vec<Site>, NoMemory>
    ensures { IfOk result (λ list. list.items ≡ sites_of_tilde body.now around.now) }
{
    let inner = around.in_tilde(alloc, block_scope(alloc, body)?)?;
    sites_of_stmts(alloc, body, &inner)
}

fn file_scope(alloc: Global, items: &Row<Stmt>) -> Result<Scope, NoMemory>
    ensures { IfOk result (λ scope. scope ≡ declared_in_file items.now) }
{
    let mut all = Vec::new(alloc);
    declared_in_file(items, &mut all)?;
    Scope::new(alloc, all)
}

fn sites_of_file(alloc: Global, items: &Row<Stmt>) -> Result<Vec<Site>, NoMemory>
    ensures { IfOk result (λ list. list.items ≡ sites_of_stmts items.now (at_top (declared_in_file items.now))) }
{
    let around = Around::at_top(alloc, file_scope(alloc, items)?)?;
    sites_of_stmts(alloc, items, &around)
}

/// The first name of the program that is used where it may not be, with the lowest of the rules of S5 to S8 that it breaks.
/// `None` exactly where each name may be used at its place. Takes time in proportion to the program's size and the depth of its tree.
///
/// # Errors
/// `NoMemory`.
pub fn misused_name(alloc: Global, program: &Program) -> Result<Option<Broken>, NoMemory>
    ensures { IfOk result (λ found. found ≡ first_of (misused_names program.now)) }
{
    let tildes = program.tildes.items();
    let globals = client_globals(alloc, tildes)?;
    let top = sites_of_file(alloc, &program.items)?;
    let levels = tildes.len() + 1;
    let client = Client {
        alloc,
        tildes,
        globals: &globals,
    };
    client.at_sites(levels, top.as_slice())
}
