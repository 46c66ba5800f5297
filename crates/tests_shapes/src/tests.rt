mod depth;
mod looks;
mod lookups;
mod making;
mod nested;
mod openings;
mod plain_form;
