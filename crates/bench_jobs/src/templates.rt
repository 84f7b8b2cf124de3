//! Blocks of Terraform as people write them, with holes.
//!
//! In a block `@w` stands for a word, `@n` for a name, `@r` for a reference and `@d` for a number.

use crate::text::Text;
use std::alloc::{AllocError, Global};

/// Blocks that are laid out, in which no rule finds anything.
const TIDY: [&str; 13] = [
    r#"variable "@n" {
  description = "The @w of the @w, as the @w has it"
  type        = string
  default     = "@w-@w"
}
"#,
    r#"variable "@n" {
  description = "How many @w the @w may have"
  type        = object({ name = string, size = number })
}
"#,
    r#"# The @w for the @w, kept in one place
variable "@n" {
  type        = list(string)
  description = "What the @w of a @w is named"
  default     = []

  validation {
    condition     = length(var.@n) < @d && alltrue([for s in var.@w : length(s) > 2])
    error_message = "At most @d @w, each of three letters or more."
  }
}
"#,
    r#"output "@n" {
  description = "What the @w is named"
  value       = @r
}
"#,
    r#"output "@n" {
  value       = { for k, v in @r : k => v.arn if v.enabled }
  description = "The @w by @w"
  sensitive   = true
}
"#,
    r#"locals {
  @n = "${@r}-@w-${var.environment}"

  common_tags = {
    Environment = var.environment # see @w
    Owner       = "@w-@w"
    CostCenter  = @d
    ManagedBy   = @r
  }

  @n = [
    "@w",
    @r,
    "@w-@d",
  ]
}
"#,
    r#"module "@n" {
  source = "./modules/@w"

  name           = "@w-@w"
  environment    = var.environment
  vpc_id         = @r
  subnet_ids     = ["@w", @r, "@w"]
  instance_count = var.environment == "production" ? @d : 1

  providers = {
    aws = aws.east
  }
}
"#,
    r#"data "aws_iam_policy_document" "@n" {
  statement {
    sid    = "@w"
    effect = "Allow"

    actions = [
      "s3:GetObject",
      "s3:ListBucket",
    ]

    resources = [@r, "${@r}/*"]
  }
}
"#,
    r#"resource "aws_instance" "@n" {
  count = length(@r) > 0 ? @d : 0

  name                   = "${@r}-@w-${var.environment}"
  ami                    = @r
  instance_type          = "@w.@w"
  subnet_id              = element(@r, @d)
  vpc_security_group_ids = [aws_security_group.@w.id, @r]
  availability_zone      = format("%s-%s", @r, @r)
  monitoring             = true

  tags = {
    Name        = "@w-@w"
    Environment = var.environment
    Team        = "@w"
  }

  lifecycle {
    create_before_destroy = true
    ignore_changes        = [tags, user_data]
  }
}
"#,
    r#"resource "aws_security_group" "@n" {
  # Who may reach the @w
  ingress {
    from_port   = @d
    to_port     = @d
    protocol    = "tcp"
    cidr_blocks = [@r]
  }

  dynamic "egress" {
    for_each = @r
    content {
      from_port = egress.key
      to_port   = egress.value
    }
  }
}
"#,
    r#"resource "aws_iam_role" "@n" {
  name = "@w-@w"

  assume_role_policy = jsonencode({
    Version = "2012-10-17"
    Statement = [
      {
        Effect    = "Allow"
        Action    = "sts:AssumeRole"
        Principal = { Service = "@w.amazonaws.com" }
      },
    ]
  })
}
"#,
    r#"resource "aws_launch_template" "@n" {
  name_prefix = "@w-"
  image_id    = @r

  user_data = <<-EOT
    #!/bin/bash
    set -euo pipefail
    echo "@w ${@r}" >> /etc/@w.conf
    echo "@w ${@r}" >> /etc/@w.conf
    %{ if var.debug ~}
    set -x
    %{ endif ~}
  EOT
}
"#,
    r#"resource "aws_s3_bucket" "@n" {
  for_each = toset([for s in @r : s.id if s.enabled])

  bucket        = "@w-@w-@d"
  force_destroy = var.environment != "production"
  tags          = merge(local.common_tags, { Name = "@w-${each.key}" })
}
"#,
];

/// Blocks that are laid out, with something that a rule finds.
const FINDINGS: [&str; 6] = [
    r#"// The @w of the @w
variable "@n" {
  type = string
}
"#,
    r#"resource "aws_instance" "@n" {
  ami       = "${@r}"
  subnet_id = aws_subnet.@w.0.id
  key_name  = lookup(@r, "@w")
  user_data = lookup(@r, "@w", "@w")
}
"#,
    r#"module "@n" {
  source = "./modules/@w"
  count  = @r == [] ? 0 : 1
  name   = "${@r}"
  zone   = var.zones.@d
}
"#,
    r#"output "camelCase@d" {
  value = "${@r}" // as it was
}
"#,
    r#"variable "@n" {
  default = "@w"
}
"#,
    r#"# tflint-ignore: terraform_naming_convention # kept as it was
resource "aws_db_instance" "Main@d" {
  identifier = "${@r}"
  name       = lookup(var.names, "@w")
}
"#,
];

/// Blocks that are badly laid out.
const UNTIDY: [&str; 5] = [
    r#"variable "@n" {
description="The @w of the @w"
  type = string
    default   =   "@w"
}
"#,
    r#"resource "aws_instance" "@n" {
  ami = @r
  instance_type="@w"
  subnet_ids   = ["@w",@r,"@w"]

    tags = {
    Name="@w"
    Environment    = "${var.environment}"
    Team = lookup( @r,"@w" )
    }
}
"#,
    r#"locals {
@n = [
"@w",
    "@w",
  @r
]
  @n = var.environment=="@w"?@d:1
}
"#,
    r#"module "@n"   {
  source="./modules/@w"
  environment = var.environment  // see @w
  name = "@w-${ @r }"
   instance_count = length( @r )+@d
}
"#,
    r#"output   "@n" {
  value=[for s in @r:s.id if s.enabled]
   description   =   "The @w"
}
"#,
];

const TYPES: [&str; 6] = [
    "aws_instance",
    "aws_s3_bucket",
    "google_storage_bucket",
    "azurerm_resource_group",
    "kubernetes_namespace",
    "aws_route53_record",
];

/// A piece of a block: a hole, or the text up to the next one.
#[derive(Clone, Copy)]
enum Piece {
    Word,
    Name,
    Reference,
    Number,
    Text(&'static str),
}

/// The blocks of one kind, each in pieces.
#[derive(Drop)]
pub struct Blocks {
    pieces: Vec<Vec<Piece>>,
}

impl Blocks {
    pub fn tidy(alloc: Global) -> Blocks {
        Blocks::new(alloc, &TIDY)
    }

    pub fn with_findings(alloc: Global) -> Blocks {
        Blocks::new(alloc, &FINDINGS)
    }

    pub fn untidy(alloc: Global) -> Blocks {
        Blocks::new(alloc, &UNTIDY)
    }

    fn new(alloc: Global, blocks: &[&'static str]) -> Blocks {
        let mut pieces = Vec::new(alloc);
        for block in blocks {
            if let Ok(block) = pieces_of(alloc, block) {
                let _ = pieces.push(block);
            }
        }
        Blocks { pieces }
    }

    /// Puts one of them, its holes filled.
    pub fn put(&self, out: &mut Text) {
        let chosen = out.chance.below(self.pieces.len());
        if let Some(block) = self.pieces.get(chosen) {
            for piece in block {
                put_piece(*piece, out);
            }
        }
    }
}

fn pieces_of(alloc: Global, block: &'static str) -> Result<Vec<Piece>, AllocError> {
    let mut pieces = Vec::new(alloc);
    for (number, part) in block.split('@').enumerate() {
        let (hole, rest) = if number == 0 {
            (None, part)
        } else {
            split_hole(part)
        };
        if let Some(hole) = hole {
            pieces.push(hole)?;
        }
        pieces.push(Piece::Text(rest))?;
    }
    Ok(pieces)
}

/// Splits the text after `@` into its hole and the rest.
fn split_hole(part: &'static str) -> (Option<Piece>, &'static str) {
    for (letter, hole) in [
        ('w', Piece::Word),
        ('n', Piece::Name),
        ('r', Piece::Reference),
        ('d', Piece::Number),
    ] {
        if let Some(rest) = part.strip_prefix(letter) {
            return (Some(hole), rest);
        }
    }
    (None, part)
}

fn put_piece(piece: Piece, out: &mut Text) {
    match piece {
        Piece::Word => out.word(),
        Piece::Name => out.name(),
        Piece::Reference => put_reference(out),
        Piece::Number => out.number(9000),
        Piece::Text(text) => out.put(text),
    }
}

/// A reference to a value of another place.
pub fn put_reference(out: &mut Text) {
    match out.chance.below(6) {
        0 => {
            out.put("var.");
            out.name();
        }
        1 => {
            out.put("local.");
            out.word();
            out.put("_name");
        }
        2 => {
            out.put("module.");
            out.word();
            out.put(".id");
        }
        3 => {
            out.choose(&TYPES);
            out.put(".");
            out.word();
            out.put(".arn");
        }
        4 => {
            out.put("data.");
            out.choose(&TYPES);
            out.put(".");
            out.word();
            out.put("[0].id");
        }
        _ => out.put("each.value.name"),
    }
}
